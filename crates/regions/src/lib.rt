// Regions and their tags, and the 24 bytes of a region in a table.
#![tactic(auto)]

ghost use Rattle.std.specs.Prelude.{◌≡◌, ◌<◌, ◌≤◌};
ghost use Rattle.address.specs.Numbers.{address as checked_address};
ghost use Rattle.regions.specs.Meaning.{end as end_of, joins as joins_at, same_tag};
ghost use Rattle.regions.specs.Changes.{has as has_flag, one_flag, change, set_flag, clear_flag};
ghost use Rattle.regions.specs.Steps.{FlagBounded, FlagsBounded};
ghost use Rattle.regions.specs.Lists.{is as is_tag, legal_tag};

use address::{Address, Size};

pub mod bytes;

// What is told of an address beside its being there: flags (a sum of 1 hotplug, 2 mirror, 4 no-map) and a node.
// Both are the numbers of a record in C's table, right or not: `legal` tells which may stand there.
#[derive(Clone, Copy, PartialEq, Eq)]
pub struct Tag {
    pub flags: u32,
    pub node: u32,
}

// The addresses from `base` up to, not including, base + size, all of one tag.
#[derive(Clone, Copy)]
pub struct Region {
    pub base: Address,
    pub size: Size,
    pub tag: Tag,
}

// A run of addresses, from `low` up to, not including, `end`.
#[derive(Clone, Copy)]
pub struct Run {
    pub low: Address,
    pub end: Address,
}

// How an address stands in a table.
// Not an Option<Tag>: document 01's two cases by their names, which the definitions and theorems of specs/ (Meaning, Changes, Lists) speak of; None would not
// say that an address is absent.
#[derive(Clone, Copy, PartialEq, Eq)]
pub enum State {
    Absent,
    Present(Tag),
}

// The two tables: memory present and memory taken.
#[derive(Clone, Copy)]
pub enum Kind {
    Memory,
    Taken,
}

// What a command makes of an address of its range: add and reserve fill, remove and free clear, mark and unmark set and clear a flag.
// The flag is C's number of it, which `one_flag` has tested.
#[derive(Clone, Copy)]
pub enum Change {
    Fill(Tag),
    Clear,
    Mark(u32),
    Unmark(u32),
}

// Whether flags `f` have the flag of weight `w`.
pub fn has(w: u32, f: u32) -> bool
    requires { 0 < w }
    ensures { result ≡ has_flag w f }
{
    f / w % 2 == 1
}

// Whether `w` is one of the three flags: 1 hotplug, 2 mirror, 4 no-map.
pub fn one_flag(w: u32) -> bool
    ensures { result ≡ one_flag w }
{
    matches!(w, 1 | 2 | 4)
}

impl Tag {
    // With the flag of weight `w`.
    pub fn with_flag(self, w: u32) -> Tag
        requires { (0 < w) × ((w ≤ 4) × (self.flags ≤ 7)) }
        ensures { (result.flags ≡ set_flag w self.flags) × (result.node ≡ self.node) }
    {
        if has(w, self.flags) {
            return self;
        }
        Tag {
            flags: self.flags + w,
            node: self.node,
        }
    }

    // Without it.
    pub fn without_flag(self, w: u32) -> Tag
        requires { 0 < w }
        ensures { (result.flags ≡ clear_flag w self.flags) × (result.node ≡ self.node) }
    {
        if has(w, self.flags) {
            return Tag {
                flags: self.flags - w,
                node: self.node,
            };
        }
        self
    }

    // Whether the tag may stand in the table.
    #[tactic(auto, unfolding(crate::specs::Lists::legal_tag))]
    pub fn legal(self, kind: Kind) -> bool
        ensures { result ≡ legal_tag kind self }
    {
        match kind {
            Kind::Memory => self.flags <= 7 && self.node <= 63,
            Kind::Taken => self.flags == 0 && self.node == 0,
        }
    }
}

impl State {
    // Whether the address is present with this tag.
    pub fn is(self, tag: Tag) -> bool
        ensures { result ≡ is_tag self tag }
    {
        self == State::Present(tag)
    }
}

impl Change {
    // What the change makes of an address of this state.
    #[tactic(auto, unfolding(crate::specs::Changes::change))]
    pub fn apply(self, state: State) -> State
        requires { FlagBounded self × FlagsBounded state }
        ensures { result ≡ change self state }
    {
        match state {
            State::Absent => match self {
                Change::Fill(tag) => State::Present(tag),
                Change::Clear => State::Absent,
                Change::Mark(_) | Change::Unmark(_) => State::Absent,
            },
            State::Present(own) => match self {
                Change::Fill(_) => state,
                Change::Clear => State::Absent,
                Change::Mark(w) => State::Present(own.with_flag(w)),
                Change::Unmark(w) => State::Present(own.without_flag(w)),
            },
        }
    }
}

impl Region {
    // Whether what starts at `base` with this tag is one with the region: the region ends there with that tag.
    pub fn joins(self, base: Address, tag: Tag) -> bool
        ensures { result ≡ joins_at self base.0 tag }
    {
        self.end() == Some(base) && self.tag == tag
    }

    // The first address past the region.
    pub fn end(self) -> Option<Address>
        ensures { result ≡ checked_address (end_of self) }
    {
        self.base.plus(self.size)
    }
}
