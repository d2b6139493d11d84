// Little-endian numbers and regions in a lent slice of bytes.
ghost use Rattle.std.specs.Prelude.{◌≡◌, ◌+◌, ◌<◌, ◌≤◌, length, drop, get_or};
ghost use Rattle.std.proofs.lemmas.List.Edits.{sets};
ghost use Rattle.regions.specs.Bytes.{number, bytes, read_region, region_bytes};

use crate::{Region, Tag};
use address::{Address, Size};

// The u32 at `at`.
pub fn get_u32(s: &[u8], at: usize) -> u32
    requires { at + 4 ≤ length s.now }
    ensures { result ≡ number 4 (drop at s.now) }
{
    u32::from_le_bytes([s[at], s[at + 1], s[at + 2], s[at + 3]])
}

// The u64 at `at`.
pub fn get_u64(s: &[u8], at: usize) -> u64
    requires { at + 8 ≤ length s.now }
    ensures { result ≡ number 8 (drop at s.now) }
{
    get_u32(s, at) as u64 + (get_u32(s, at + 4) as u64) * 4294967296
}

// Writes a u32 at `at`.
pub fn put_u32(s: &mut [u8], at: usize, v: u32)
    requires { at + 4 ≤ length s.old }
    ensures { s.new ≡ sets s.old at (bytes 4 v) }
{
    let a = v / 256;
    let b = a / 256;
    let c = b / 256;
    s[at] = (v % 256) as u8;
    s[at + 1] = (a % 256) as u8;
    s[at + 2] = (b % 256) as u8;
    s[at + 3] = (c % 256) as u8;
}

// Writes a u64 at `at`.
pub fn put_u64(s: &mut [u8], at: usize, v: u64)
    requires { at + 8 ≤ length s.old }
    ensures { s.new ≡ sets s.old at (bytes 8 v) }
{
    put_u32(s, at, (v % 4294967296) as u32);
    put_u32(s, at + 4, (v / 4294967296) as u32);
}

// The region whose record stands at `at`.
pub fn get_region(s: &[u8], at: usize) -> Region
    requires { at + 24 ≤ length s.now }
    ensures { result ≡ read_region (drop at s.now) }
{
    Region {
        base: Address(get_u64(s, at)),
        size: Size(get_u64(s, at + 8)),
        tag: Tag {
            flags: get_u32(s, at + 16),
            node: get_u32(s, at + 20),
        },
    }
}

// Writes a region's record at `at`.
pub fn put_region(s: &mut [u8], at: usize, r: Region)
    requires { at + 24 ≤ length s.old }
    ensures { s.new ≡ sets s.old at (region_bytes r) }
{
    put_u64(s, at, r.base.0);
    put_u64(s, at + 8, r.size.0);
    put_u32(s, at + 16, r.tag.flags);
    put_u32(s, at + 20, r.tag.node);
}
