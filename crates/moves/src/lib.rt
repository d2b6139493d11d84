// Records moved within a table.
#![tactic(auto)]

ghost use Rattle.std.specs.Prelude.{◌≡◌, true, [], ◌∷◌, ◌++◌, ◌+◌, ◌*◌, ◌-◌, ◌/◌, ◌≤◌, length, take, drop, replicate};
ghost use Rattle.std.proofs.lemmas.List.Edits.{sets};
ghost use Rattle.regions.specs.Bytes.{read_regions, table_bytes};
ghost use Rattle.records.specs.Checks.{all_zeros};
ghost use Rattle.records.specs.Steps.{put};

use records::table::{Records, copy_front, put_zeros};
use regions::Region;
use regions::bytes::put_region;

// Copies `N` bytes of `t` from one place to another.
fn copy_piece<const N: usize>(t: &mut [u8], from: usize, to: usize)
    requires { (from + N ≤ length t.old) × (to + N ≤ length t.old) }
    ensures { t.new ≡ sets t.old to (take N (drop from t.old)) }
{
    let mut piece = [0u8; N];
    piece.copy_from_slice(&t[from..from + N]);
    t[to..to + N].copy_from_slice(&piece);
}

// Moves the records from `from` up to, not including, `end` higher by `by` records. Four at a time: the library's copy_within takes a fifth longer.
pub fn move_up(t: &mut [u8], from: usize, end: usize, by: usize)
    requires { (from ≤ end) × (24 * (end + by) ≤ length t.old) }
    ensures { t.new ≡ sets t.old (24 * (from + by)) (take (24 * (end - from)) (drop (24 * from) t.old)) }
{
    let mut left = end;
    while 4 <= left - from {
        left -= 4;
        copy_piece::<96>(t, 24 * left, 24 * (left + by));
    }
    for i in (from..left).rev() {
        copy_piece::<24>(t, 24 * i, 24 * (i + by));
    }
}

// Moves them lower.
// The mirror of `move_up`: from the front, so that no record is written over before it is moved.
pub fn move_down(t: &mut [u8], from: usize, end: usize, by: usize)
    requires { (from ≤ end) × ((by ≤ from) × (24 * end ≤ length t.old)) }
    ensures { t.new ≡ sets t.old (24 * (from - by)) (take (24 * (end - from)) (drop (24 * from) t.old)) }
{
    let mut done = from;
    while 4 <= end - done {
        copy_piece::<96>(t, 24 * done, 24 * (done - by));
        done += 4;
    }
    for i in done..end {
        copy_piece::<24>(t, 24 * i, 24 * (i - by));
    }
}

// Moves the records from `stop` up to, not including, `count` to `new`, and writes zeros where the last of them stood.
fn shift(t: &mut [u8], count: usize, stop: usize, new: usize)
    requires { (stop ≤ count) × ((24 * count ≤ length t.old) × (24 * (count - stop + new) ≤ length t.old)) }
    ensures { t.new ≡ sets t.old (24 * new) (take (24 * (count - stop)) (drop (24 * stop) t.old) ++ replicate (24 * (stop - new)) 0) }
{
    if stop == new {
        return;
    }
    if stop < new {
        move_up(t, stop, count, new - stop);
        return;
    }
    let left = 24 * (count - (stop - new));
    let end = 24 * count;
    move_down(t, stop, count, stop - new);
    put_zeros(&mut t[left..end], 0);
}

// Puts `others` in the place of the records from `first` up to, not including, `stop`, in a table of `count` records with zeros behind.
// The two places stay two numbers: `put` of the theorems has them so, and `shift` is given one of them.
// Always inlined: as a call it takes more stack in every command than `memblock.h` tells.
#[inline(always)]
pub fn replace(t: &mut [u8], count: usize, first: usize, stop: usize, others: Records)
    requires { ((first ≤ stop) × (stop ≤ count)) × (((24 * count ≤ length t.old) × (24 * (count - stop + (first + others.count)) ≤ length t.old)) × ((24 * others.count ≤ length others.bytes.now) × ((length t.old ≡ 24 * (length t.old / 24)) × (all_zeros (drop (24 * count) t.old) ≡ true)))) }
    ensures { t.new ≡ table_bytes (length t.old / 24) (put first stop (read_regions others.entry.count others.entry.bytes.now) (read_regions count t.old)) }
{
    let from = 24 * first;
    shift(t, count, stop, first + others.count);
    copy_front(&mut t[from..], others.bytes, 24 * others.count);
}

// Puts one record in their place.
// Apart from `replace`, for which its bytes would have to be written to another table first.
pub fn replace_one(t: &mut [u8], count: usize, first: usize, stop: usize, r: Region)
    requires { ((first ≤ stop) × (stop ≤ count)) × (((24 * count ≤ length t.old) × (24 * (count - stop + (first + 1)) ≤ length t.old)) × ((length t.old ≡ 24 * (length t.old / 24)) × (all_zeros (drop (24 * count) t.old) ≡ true))) }
    ensures { t.new ≡ table_bytes (length t.old / 24) (put first stop (r ∷ []) (read_regions count t.old)) }
{
    shift(t, count, stop, first + 1);
    put_region(t, 24 * first, r);
}
