// The free runs of two tables, lent as parts of the block, one after the other: each record is read once.
#![tactic(auto)]

ghost use Rattle.std.specs.Prelude.{◌≡◌, ◌≤◌};
ghost use Rattle.runs.specs.Steps.{GoodTables};
ghost use Rattle.sweep.specs.Steps.{Ahead, Advanced};

use address::Address;
use regions::has;
use runs::{Bounds, Tables, bounds_high, bounds_low, past};

// Where a sweep stands: what lies below `low` is behind it, and no run goes across. What is left of the memory record at hand ends at `top`; there is none
// at hand where `top` is not above `low`. Memory record `memory` is the next to be read, and `next` is taken record `taken`.
// No Option for the record at hand: the loop compares `top` with `low` anyway, since a taken record may reach past it.
#[derive(Clone, Copy)]
pub struct Sweep {
    pub low: Address,
    pub top: Address,
    pub memory: usize,
    pub taken: usize,
    pub next: Bounds,
}

// A run, and the sweep behind it.
#[derive(Clone, Copy)]
pub struct Swept {
    pub low: Address,
    pub end: Address,
    pub behind: Sweep,
}

// A sweep from `a` on: from where the last record that ends at or below `a` does.
pub fn begin(t: Tables<'_>, a: Address) -> Sweep
    requires { GoodTables t }
    ensures { (result.low.0 ≤ a.0) × Ahead t.entry result }
{
    let i = t.memory.place(a);
    let j = t.taken.place(a);
    let from = bounds_high(t.memory, i).end;
    let until = bounds_high(t.taken, j).end;
    let next = bounds_low(t.taken, j);
    Sweep {
        low: from.max(until),
        top: Address(0),
        memory: i,
        taken: j,
        next,
    }
}

// The next run, or None where none is left. A turn reads one record: of memory, where none is at hand, else the next taken one, which ends the run or lies
// across where it would begin. The loop goes on in two indices, one of them at each turn: no `for` and no chain has this form.
pub fn advance(t: Tables<'_>, s: Sweep) -> Option<Swept>
    requires { GoodTables t × Ahead t s }
    ensures { Advanced t.entry s result }
{
    let mut low = s.low;
    let mut top = s.top;
    let mut i = s.memory;
    let mut j = s.taken;
    let mut next = s.next;
    loop {
        if top <= low {
            if t.memory.count <= i {
                return None;
            }
            let r = t.memory.get(i);
            i += 1;
            if !has(4, r.tag.flags) {
                let base = r.base;
                top = past(r);
                low = low.max(base);
            }
            continue;
        }
        let from = low;
        let base = next.base;
        let end = next.end;
        if top <= base {
            let behind = Sweep {
                low: top,
                top,
                memory: i,
                taken: j,
                next,
            };
            return Some(Swept {
                low: from,
                end: top,
                behind,
            });
        }
        low = low.max(end);
        j += 1;
        next = bounds_low(t.taken, j);
        if from < base {
            let behind = Sweep {
                low,
                top,
                memory: i,
                taken: j,
                next,
            };
            return Some(Swept {
                low: from,
                end: base,
                behind,
            });
        }
    }
}
