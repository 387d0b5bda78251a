// Lists of words, one for each component.
ghost use Rattle.std.specs.Prelude.{◌≡◌, [], get_or, map};

/// The words of a component: none if they were out of memory.
#[inline(always)]
pub(crate) fn words_of<W>(lists: &[Vec<W>], component: usize) -> &[W]
    ensures { result.now ≡ get_or (map (λ v. v.items) lists.now) component [] }
{
    match lists.get(component) {
        Some(words) => words.as_slice(),
        None => &[],
    }
}
