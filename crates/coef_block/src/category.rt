// How many bits a coefficient or a difference has.
ghost use Rattle.std.specs.Prelude.{ℕ, ◌≡◌, ◌-◌, ◌^◌, ◌<◌, ◌≤◌, unsigned_abs};
ghost use Rattle.coef_block.specs.Categories.{category};

/// How many bits the absolute value has, from 0 to 32: the category SSSS of a difference or a coefficient (ITU-T T.81,
/// F.1.2.1, Table F.1).
#[inline(always)]
#[tactic(auto, using(crate::proofs::CategoryLemmas::categories))]
pub fn size(x: i32) -> u8
    ensures category { result ≡ category (unsigned_abs x) }
    ensures below { unsigned_abs x < 2 ^ result }
    ensures least { 0 < result → 2 ^ (result - 1) ≤ unsigned_abs x }
    ensures no_more { (bits : ℕ) → unsigned_abs x < 2 ^ bits → result ≤ bits }
{
    (32 - x.unsigned_abs().leading_zeros()) as u8
}
