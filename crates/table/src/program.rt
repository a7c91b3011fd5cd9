// The program table: eight words of counts and the edition, the first line of each block, lines of eight words in the text's order.
ghost use Rattle.std.specs.Prelude.{◌≡◌, ◌+◌, ◌*◌, ◌%◌, ◌<◌, ◌≤◌, [], ◌∷◌, ◌++◌, length, take, drop, if◌then◌else◌, nat_lt, slice_index, slice_set};
ghost use Rattle.table.specs.ProgramTable.{LineAdded, OpenerAdded, Counted, Same, LineCount, UsedWords, EditionIs, LineWord, BlockForm, FirstLine, KindFields, KindMethod};

// Line n of the text: the number of its form, and its parts. (Kept apart: by tests/straight.py the crates that read have no array but the table.)
pub fn add_line(t: &mut [u16], n: usize, form: u16, a: u16, b: u16, c: u16, d: u16, e: u16, f: u16)
    requires { (8192 ≤ length t.old) × (n < 672) }
    ensures t_after { t.new ≡ take (72 + n * 8) t.old ++ ((form ∷ a ∷ b ∷ c ∷ d ∷ e ∷ f ∷ 0 ∷ []) ++ drop (80 + n * 8) t.old) }
    ensures line_added { LineAdded n (form ∷ a ∷ b ∷ c ∷ d ∷ e ∷ f ∷ 0 ∷ []) t.old t.new }
{
    let p = 72 + n * 8;
    t[p] = form;
    t[p + 1] = a;
    t[p + 2] = b;
    t[p + 3] = c;
    t[p + 4] = d;
    t[p + 5] = e;
    t[p + 6] = f;
    t[p + 7] = 0;
}

// Line n of the text opens block b, whose first line is the next one.
pub fn add_opener(t: &mut [u16], n: usize, b: usize, form: u16)
    requires { (8192 ≤ length t.old) × (n < 672) × (b < 64) }
    ensures t_after { t.new ≡ slice_set (take (72 + n * 8) t.old ++ ((form ∷ 0 ∷ 0 ∷ 0 ∷ 0 ∷ 0 ∷ 0 ∷ 0 ∷ []) ++ drop (80 + n * 8) t.old)) (8 + b) (n + 1) }
    ensures opener_added { OpenerAdded n b form t.old t.new }
{
    add_line(t, n, form, 0, 0, 0, 0, 0, 0);
    t[8 + b] = (n + 1) as u16;
}

// How many kinds, blocks and lines there are, and which edition they are of.
pub fn put_counts(t: &mut [u16], kinds: usize, blocks: usize, lines: usize, edition: u16)
    requires { (8192 ≤ length t.old) × (kinds ≤ 32) × (blocks ≤ 64) × (lines ≤ 672) }
    ensures t_after { t.new ≡ (kinds ∷ blocks ∷ lines ∷ edition ∷ []) ++ drop 4 t.old }
    ensures counted { Counted kinds blocks lines edition t.old t.new }
{
    t[0] = kinds as u16;
    t[1] = blocks as u16;
    t[2] = lines as u16;
    t[3] = edition;
}

// All words of a table into another.
pub fn copy_table(t: &mut [u16], from: &[u16])
    requires { (8192 ≤ length t.old) × (length from.now ≡ 8192) }
    ensures { t.new ≡ from.now ++ drop 8192 t.old }
{
    t[..8192].copy_from_slice(from);
}

// Whether the first words of a table are all the words of another.
pub fn same_table(t: &[u16], words: &[u16]) -> bool
    requires { (8192 ≤ length t.now) × (length words.now ≡ 8192) }
    ensures { Same t.now words.now result }
{
    &t[..8192] == words // the rows past the last line too
}

// How many lines the text has.
#[tactic(auto, using(crate::proofs::ProgramTable::line_count_read))]
pub fn line_count(t: &[u16]) -> usize
    requires { 8192 ≤ length t.now }
    ensures value { (result ≡ slice_index t.now 2) × (result ≤ 65535) }
    ensures line_count { LineCount t.now result }
{
    t[2] as usize
}

// How many words of a program table are used: those behind them, among the 8,192, are 0.
pub fn used_words(t: &[u16]) -> usize
    requires { 8192 ≤ length t.now }
    ensures value { (result ≡ (if nat_lt 672 (slice_index t.now 2) then 8192 else 72 + slice_index t.now 2 * 8)) × (result ≤ 8192) }
    ensures used_words { UsedWords t.now result }
{
    let n = line_count(t);
    if 672 < n {
        return 8192; // no text has so many lines
    }
    72 + n * 8 // behind the last line
}

// The word that tells the edition.
#[tactic(auto, using(crate::proofs::ProgramTable::edition_read))]
pub fn edition(t: &[u16]) -> u16
    requires { 8192 ≤ length t.now }
    ensures value { result ≡ slice_index t.now 3 }
    ensures edition_is { EditionIs t.now result }
{
    t[3] // 0 or 2 where a text was read
}

// Word k of line n of the text.
#[tactic(auto, using(crate::proofs::ProgramTable::line_word_read))]
pub fn line_word(t: &[u16], n: usize, k: usize) -> u16
    requires { (8192 ≤ length t.now) × (n < 672) × (k < 8) }
    ensures value { result ≡ slice_index t.now (72 + n * 8 + k) }
    ensures line_word { LineWord t.now n k result }
{
    t[72 + n * 8 + k]
}

// The number of the line after block b's opener.
#[tactic(auto, using(crate::proofs::ProgramTable::first_line_read))]
pub fn first_line(t: &[u16], b: usize) -> usize
    requires { (8192 ≤ length t.now) × (b < 64) }
    ensures value { (result ≡ slice_index t.now (8 + b)) × (result ≤ 65535) }
    ensures first_line { FirstLine t.now b result }
{
    t[8 + b] as usize
}

// The number of the form of block b's opener, a thread or a method.
pub fn block_form(t: &[u16], b: usize) -> u16
    requires { (8192 ≤ length t.now) × (b < 64) }
    ensures value { result ≡ slice_index t.now ((64 + slice_index t.now (8 + b) * 8) % 8192) }
    ensures block_form { BlockForm t.now b result }
{
    let first = first_line(t, b);
    t[(64 + first * 8) % 8192]
}

// How many fields kind n has.
pub fn kind_fields(t: &[u16], n: usize) -> u16
    requires { (8192 ≤ length t.now) × (n < 672) }
    ensures value { result ≡ slice_index t.now (73 + n * 8) }
    ensures kind_fields { KindFields t.now n result }
{
    line_word(t, n, 1)
}

// One more than the block of method i of kind n, or 0 where the kind has no such method.
pub fn kind_method(t: &[u16], n: usize, i: usize) -> u16
    requires { (8192 ≤ length t.now) × (n < 672) × (i < 4) }
    ensures value { result ≡ slice_index t.now (74 + n * 8 + i) }
    ensures kind_method { KindMethod t.now n i result }
{
    line_word(t, n, i + 2)
}
