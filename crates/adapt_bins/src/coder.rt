// One interface for both ways, so that what codes blocks is written once.
ghost use Rattle.std.specs.Prelude.{◌≡◌, ◌<◌, ℕ, Bool, List, [], ◌∷◌, ◌++◌, IfOk, OnErr, IfSome, IsTrue};

/// Codes bits in bins: it is given each and puts it into a stream, or it gets each from one. An event is a bit with the
/// number of its bin.
pub trait Coder {
    /// Why a bit can't be coded.
    type Stop;

    /// How many bins there are.
    ghost room: { Self → ℕ };

    /// Whether it is given the bits.
    ghost given: { Bool };

    /// These events were coded between two states.
    ghost codes: { Self → List (ℕ × Bool) → Self → Type 0 };

    /// What holds after a stop.
    ghost stopped: { Self → Type 0 };

    /// Codes the next bit in a bin, and returns it. A coder that is given the bits codes `bit`; one that gets them
    /// ignores it.
    fn code(&mut self, bin: usize, bit: Option<bool>) -> Result<bool, Self::Stop>
        requires { bin < room self.old }
        ensures coded { IfOk result (λ b. codes self.old ((bin, b) ∷ []) self.new) }
        ensures stopped { OnErr result (stopped self.new) }
        ensures same { IsTrue given → IfSome bit (λ b. IfOk result (λ r. r ≡ b)) };

    /// `code`, quicker if the caller branches on the bit, and slower if it doesn't.
    fn code_branching(&mut self, bin: usize, bit: Option<bool>) -> Result<bool, Self::Stop>
        requires { bin < room self.old }
        ensures coded { IfOk result (λ b. codes self.old ((bin, b) ∷ []) self.new) }
        ensures stopped { OnErr result (stopped self.new) }
        ensures same { IsTrue given → IfSome bit (λ b. IfOk result (λ r. r ≡ b)) };

    /// No events leave a state as it is.
    ghost none: { (s : Self) → codes s [] s };

    /// Events after events.
    ghost joined: { (s t u : Self) (es fs : List (ℕ × Bool))
        → codes s es t → codes t fs u → codes s (es ++ fs) u };

    /// There are as many bins as before.
    ghost keeps: { (s t : Self) (es : List (ℕ × Bool)) → codes s es t → room t ≡ room s };
}

/// What holds a coder `L` behind a reference, and moves it into a local value for a while. A local coder's state stays
/// in registers; behind a reference all of it is loaded again after each store to a bin.
pub trait Holds<L: Coder> {
    /// How many bins there are.
    ghost room: { Self → ℕ };

    /// These events were coded between two states.
    ghost codes: { Self → List (ℕ × Bool) → Self → Type 0 };

    /// What holds after a stop.
    ghost stopped: { Self → Type 0 };

    /// What it was before, what it is without its coder, and the coder.
    ghost moves: { Self → Self → L → Type 0 };

    /// Moves the coder out. What is left is of no use until `back`.
    fn moved(&mut self) -> L
        ensures moved { moves self.old self.new result }
        ensures room { L.room result ≡ room self.old };

    /// Moves a coder in. What it coded since `moved` is coded here.
    fn back(&mut self, local: L)
        ensures coded { (before : Self) (from : L) (events : List (ℕ × Bool))
            → moves before self.old from → L.codes from events local
            → codes before events self.new }
        ensures stopped { L.stopped local → stopped self.new };
}
