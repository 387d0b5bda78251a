// Numbers, blocks and MCUs that are drawn one after another.
ghost use Rattle.std.specs.Prelude.{◌≡◌, ◌<◌, ◌≤◌, ◌^◌, unsigned_abs};
ghost use Rattle.sample_jpeg.specs.Draws.{draw, state_after};
ghost use Rattle.sample_jpeg.specs.DrawnMcus.{drawn_ac, drawn_block, drawn_blocks, drawn_dc, set_once};

use coef_block::{Block, natural_position};

/// The generator's factor and its summand.
const FACTOR: u64 = 6_364_136_223_846_793_005;

const SUMMAND: u64 = 1_442_695_040_888_963_407;

/// The state of the generator: a linear congruence modulo 2^64.
#[derive(Clone, Copy)]
pub(crate) struct Draws {
    state: u64,
}

impl Draws {
    /// Before the first draw.
    pub(crate) fn new(seed: u32) -> Draws
        ensures { result.state ≡ seed }
    {
        Draws {
            state: u64::from(seed),
        }
    }

    /// The blocks of the next MCU, one of each component.
    #[tactic(auto, using(crate::proofs::DrawnTurns::mcu_is))]
    pub(crate) fn mcu(&mut self) -> [Block; 3]
        ensures value { result ≡ (drawn_blocks 3 self.old.state).value }
        ensures state { self.new.state ≡ (drawn_blocks 3 self.old.state).state }
    {
        let first = self.block();
        let second = self.block();
        let third = self.block();
        [first, second, third]
    }

    // The next block: its DC, how many coefficients are set, and each of them.
    fn block(&mut self) -> Block
        ensures value { result ≡ (drawn_block self.old.state).value }
        ensures state { self.new.state ≡ (drawn_block self.old.state).state }
    {
        let mut block = Block::zero();
        block.set(0, self.dc());
        let times = self.draw() % 8;
        for _ in 0..times {
            self.set_once(&mut block);
        }
        block
    }

    // A DC from -1000 to 1000.
    fn dc(&mut self) -> i16
        ensures value { result ≡ drawn_dc self.old.state }
        ensures small { unsigned_abs result ≤ 1000 }
        ensures state { self.new.state ≡ state_after self.old.state }
    {
        (self.draw() % 2001) as i16 - 1000
    }

    // An AC coefficient from -15 to 15.
    fn ac(&mut self) -> i16
        ensures value { result ≡ drawn_ac self.old.state }
        ensures small { unsigned_abs result ≤ 15 }
        ensures state { self.new.state ≡ state_after self.old.state }
    {
        (self.draw() % 31) as i16 - 15
    }

    // Sets an AC coefficient of a block.
    fn set_once(&mut self, block: &mut Block)
        ensures block { block.new ≡ set_once block.old self.old.state }
        ensures state { self.new.state ≡ state_after (state_after self.old.state) }
    {
        let index = 1 + self.draw() % 63;
        let value = self.ac();
        block.set(natural_position(index as usize), value);
    }

    // A number below 2^31.
    fn draw(&mut self) -> u32
        ensures number { result ≡ draw self.old.state }
        ensures below { result < 2 ^ 31 }
        ensures state { self.new.state ≡ state_after self.old.state }
    {
        self.state = self.state.wrapping_mul(FACTOR).wrapping_add(SUMMAND);
        (self.state >> 33) as u32
    }
}
