// What holds of all code words.
ghost use Rattle.std.specs.Prelude.{◌≡◌, ℕ, ◌↔◌, Bool, List, ◌++◌, length, Ok, Err, Some};
ghost use Rattle.bit_list.specs.Units.{Cursor, bits_at};
ghost use Rattle.jpeg_marker.specs.HuffmanTables.{TableFields, IsTable};
ghost use Rattle.huff_table.specs.CodeWords.{words_of, word_of, value_of};
ghost use Rattle.huff_table.specs.StandardTable.{table_k3, words_k3};
ghost use Rattle.huff_table.specs.Decoding.{value_at, IsFaultAt};
ghost use Rattle.huff_table.specs.declared.fault.CodeFault.{CodeFault};

/// No code word of a table is the beginning of another one.
pub fn no_word_begins_another()
    ensures { (table : TableFields) (value other : ℕ) (word more : List Bool) → IsTable table
        → word_of table value ≡ Some word → word_of table other ≡ Some (word ++ more)
        → value ≡ other }
{}

/// The code word of a value is the word that stands for it.
pub fn words_are_values()
    ensures { (table : TableFields) (value : ℕ) (bits : List Bool) → IsTable table
        → ((word_of table value ≡ Some bits) ↔ (value_of table bits ≡ Some value)) }
{}

/// If a code word is next, its value is read; and if a value is read, its code word was next.
pub fn a_word_is_read()
    ensures { (table : TableFields) (bytes : List ℕ) (from to : Cursor) (value : ℕ) → IsTable table
        → ((value_at table bytes from ≡ Ok (value, to))
        ↔ ((word : List Bool) × (word_of table value ≡ Some word)
        × (bits_at (length word) bytes from ≡ Ok (word, to)))) }
{}

/// A fault is answered exactly if the next sixteen bits begin with no code word, or fewer do and then no bit is there.
pub fn a_fault_is_no_word()
    ensures { (table : TableFields) (bytes : List ℕ) (from : Cursor) (fault : CodeFault)
        → IsTable table
        → ((value_at table bytes from ≡ Err fault) ↔ IsFaultAt table bytes from fault) }
{}

/// The definition computed on a table of the standard: its Table K.3.
pub fn words_of_a_standard_table()
    ensures { words_of table_k3 ≡ words_k3 }
{}
