// What a text that was scanned has.
ghost use Rattle.std.specs.Prelude.{◌≤◌};

// How many kinds, blocks and lines a text has: no more than the table has places for.
#[derive(Clone, Copy)]
pub struct Counts {
    pub kinds: usize,
    pub blocks: usize,
    pub lines: usize,
    pub ghost few: { (kinds ≤ 32) × (blocks ≤ 64) × (lines ≤ 672) },
}
