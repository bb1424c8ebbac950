// The memory that is lent to a store.
ghost use Rattle.std.specs.Prelude.{◌≡◌, ◌+◌, ◌*◌, ◌<◌, ⊤, MatchResult, replicate, IsTrue, ◌↔◌};
ghost use Rattle.std.specs.List.{All};
ghost use Rattle.session.specs.SetUp.{Filled};

use answers::answer::Hex;
use std::alloc::{AllocError, Global};
use std::fs;

const PAGE: usize = 128;

pub const SLOT: usize = 130;

// A store has at most so many pages.
const MOST_PAGES: usize = 65535;

// What the memory is lent to.
#[derive(Clone, Copy)]
pub enum Kind {
    // a memory store
    Pages,
    // a slot store of so many pages
    Slots(u16),
}

#[derive(Drop)]
pub struct Memory {
    pub bytes: Vec<u8>,
    pub kind: Kind,
}

// Pages of which every byte is the same.
pub fn filled(heap: Global, pages: u16, byte: u8) -> Result<Memory, AllocError>
    ensures { MatchResult result (Filled pages byte) (λ _. ⊤) }
{
    let bytes = vec![in heap; byte; usize::from(pages) * PAGE]?;
    Ok(Memory {
        bytes,
        kind: Kind::Pages,
    })
}

// The bytes of slots of zeros for so many pages: one slot more.
pub fn blank_slots(heap: Global, pages: u16) -> Result<Vec<u8>, AllocError>
    ensures { MatchResult result (λ v. v.items ≡ replicate ((pages + 1) * 130) 0) (λ _. ⊤) }
{
    vec![in heap; 0u8; (usize::from(pages) + 1) * SLOT]
}

// Whether every byte is zero: their bits put together are none. It takes an eighth of the time of asking each byte.
fn is_zero(bytes: &[u8]) -> bool
    ensures { IsTrue result ↔ All (λ b. b ≡ 0) bytes.now }
{
    let mut bits = 0;
    for b in bytes {
        bits |= *b;
    }
    bits == 0
}

// Prints every part of so many bytes that is not all zeros, under its number.
fn print_parts(
    rt: &HostRuntime,
    name: &str,
    bytes: &[u8],
    size: usize,
    most: usize,
) -> anyhow::Result<()>
    requires { 0 < size }
{
    for (i, part) in bytes.chunks_exact(size).take(most).enumerate() {
        if !is_zero(part) {
            let number = i + 1;
            let text = Hex(part);
            println!(rt; "{name} {number}: {text}")?;
        }
    }
    Ok(())
}

impl Memory {
    // Prints each page or slot that is not all zeros.
    pub fn dump(&self, rt: &HostRuntime) -> anyhow::Result<()> {
        match self.kind {
            Kind::Pages => print_parts(rt, "page", self.bytes.as_slice(), PAGE, MOST_PAGES),
            Kind::Slots(_) => print_parts(rt, "slot", self.bytes.as_slice(), SLOT, usize::MAX),
        }
    }

    pub fn save(&self, rt: &HostRuntime, file: &str) -> anyhow::Result<()> {
        fs::write(rt, file, self.bytes.as_slice())?;
        Ok(())
    }
}
