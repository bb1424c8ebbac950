// One whole script.
use crate::layers::{Rest, TWO_LAYERS};
use crate::memory::{Kind, Memory, SLOT};
use crate::session::{Ending, Session};
use crate::stores::set_store;
use pages::memory::MemoryStore;
use slots::store::SlotStore;

fn run_over(
    rt: &HostRuntime,
    session: &mut Session,
    memory: &mut Memory,
    lines: &[&str],
) -> anyhow::Result<()> {
    let bytes = memory.bytes.as_mut_slice();
    match memory.kind {
        Kind::Pages => TWO_LAYERS.run(rt, session, MemoryStore::over(bytes), lines),
        Kind::Slots(pages) => {
            let (slots, _rest) = bytes.as_chunks_mut::<SLOT>();
            TWO_LAYERS.run(rt, session, SlotStore::over(slots, pages), lines)
        }
    }
}

// Runs a script line by line and prints what each line did.
pub fn run_script(rt: &HostRuntime, text: &str) -> anyhow::Result<()> {
    let lines: Vec<&str> = text.lines().collect(rt.alloc())?;
    let mut session = Session::new(rt.alloc());
    let (mut memory, left) = set_store(rt, &mut session, lines.as_slice())?;
    run_over(rt, &mut session, &mut memory, left)?;
    for ending in session.endings.iter() {
        match ending {
            Ending::Dump => memory.dump(rt)?,
            Ending::Save(file) => memory.save(rt, file.as_str())?,
        }
    }
    Ok(())
}
