// Excerpts of a scan, read from a place in the middle of it.
ghost use Rattle.std.specs.Prelude.{◌≡◌, ◌++◌, [], List, IfOk, IfSome};
ghost use Rattle.std.specs.List.{All};
ghost use Rattle.scan_decode.specs.Excerpts.{AreAnywhere, IsChange, IsExcerpt, ExcerptFields};

use crate::excerpt::{Excerpt, are_changes};
use crate::skip::skip_blocks_by;
use crate::skip_tables::SkipTables;
use allocation::{NoMemory, push, with_capacity};
use bit_list::{BitFault, BitIn};
use std::alloc::Global;
use std::marker::Model;
use std::ops::Range;

/// Reads a scan without restarts from any place on, before anyone knows which MCU is there, and keeps the excerpts
/// that it reads (own). Reading that begins at a wrong bit, or within an MCU, soon falls in with the right code words
/// by itself, and with the right blocks if those of an MCU have different tables. What it reads until then is of no
/// use and does no harm: if a reader doesn't meet an excerpt, it doesn't go past it.
///
/// Clauses see `ScoutFields`.
#[derive(Drop)]
pub struct Scout<'t, 'a> {
    tables: &'t SkipTables,
    bytes: &'a [u8],
    input: BitIn<'a>,
    // The place where it stops.
    end: usize,
    // How many MCUs an excerpt has.
    each: u32,
    excerpts: Vec<Excerpt<'a>>,
}

impl<'t, 'a> Model for Scout<'t, 'a> {
    ghost use Rattle.scan_decode.specs.Excerpts.{ScoutFields};
    ghost use Rattle.scan_decode.specs.ScoutInside.{scout_in, IsScout};

    ghost Value = { ScoutFields };

    ghost view = { scout_in };

    ghost invariant = { IsScout };
}

impl<'t, 'a> Scout<'t, 'a> {
    /// Of a scan in these bytes, from a place on up to another, with room for `most` excerpts of `each` MCUs. The one
    /// error is out of memory.
    pub fn prepare(
        alloc: Global,
        tables: &'t SkipTables,
        bytes: &'a [u8],
        places: Range<usize>,
        each: u32,
        most: u16,
    ) -> Result<Scout<'t, 'a>, NoMemory>
        requires { tables.now.interval ≡ 0 }
        ensures { IfOk result (λ scout. scout
            ≡ record { shape = tables.now; bytes = bytes.now; excerpts = [] }) }
    {
        Ok(Scout {
            tables,
            bytes,
            input: BitIn::at(bytes, places.start, 0),
            end: places.end,
            each,
            excerpts: with_capacity(alloc, usize::from(most))?,
        })
    }

    /// Reads excerpts up to its end, up to a marker, which ends the scan, or until there is no more room for them. If
    /// what it reads is no MCU, it starts again at the next byte. It asks for no memory.
    pub fn run(&mut self)
        ensures { (more : List ExcerptFields)
            × (self.new ≡ record self.old { excerpts = self.old.excerpts ++ more }) }
    {
        for _ in 0..u64::MAX {
            if self.excerpts.len() >= self.excerpts.capacity()
                || self.input.next_place() >= self.end
            {
                return;
            }
            let from = self.input.copied();
            match changed(self.tables, &mut self.input, self.each) {
                Some(change) => {
                    let excerpt = Excerpt {
                        from,
                        to: self.input.copied(),
                        change,
                        mcus: self.each,
                    };
                    // There is room for it.
                    let _ = push(&mut self.excerpts, excerpt);
                }
                None => {
                    let next = self.input.next_place();
                    let mut there = BitIn::at(self.bytes, next, 0);
                    if let Err(BitFault::MarkerInScan { .. }) = there.bit() {
                        return;
                    }
                    self.input = BitIn::at(self.bytes, next.saturating_add(1), 0);
                }
            }
        }
    }

    /// The excerpts that were read, in the order in which they were.
    pub fn into_excerpts(self) -> Vec<Excerpt<'a>>
        ensures items { result.items ≡ self.entry.excerpts }
        ensures are { All (IsExcerpt self.entry.shape self.entry.bytes) result.items }
    {
        let Scout {
            tables: _,
            bytes: _,
            input: _,
            end: _,
            each: _,
            excerpts,
        } = self;
        excerpts
    }
}

// Reads the MCUs of an excerpt, and answers how much they change the last DCs, if they are MCUs.
fn changed(tables: &SkipTables, input: &mut BitIn, mcus: u32) -> Option<[i16; 4]>
    requires { tables.now.interval ≡ 0 }
    ensures bytes { input.new.bytes ≡ input.old.bytes }
    ensures change { IfSome result (λ change. All IsChange change) }
    ensures are { IfSome result (λ change. AreAnywhere mcus tables.now input.old.bytes
        input.old.cursor input.new.cursor change) }
{
    let mut change = [0; 4];
    let (codes, slots) = tables.shape.slots();
    for _ in 0..mcus {
        match skip_blocks_by(&tables.words, codes, slots, &mut change, input) {
            Ok(()) => {}
            Err(_) => return None,
        }
        if !are_changes(&change) {
            return None;
        }
    }
    Some(change)
}
