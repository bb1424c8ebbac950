ghost use Rattle.std.specs.Prelude.{◌≡◌, ◌-◌, length};
ghost use Rattle.records.specs.Tray.{first, Lays, Lifts};

use crate::tray::Tray;

// The clauses `lent` say that the memory is that of the same loan, so that the lender knows what it gets back.
impl<'a, T: Drop> Tray<'a, T> {
    // An empty tray over lent memory.
    pub fn over(memory: &'a mut [T]) -> Tray<'a, T>
        ensures empty { result.used ≡ 0 }
        ensures memory { result.memory.now ≡ memory.old }
        ensures lent { result.memory.ghost_name ≡ memory.entry.ghost_name }
    {
        Tray { memory, used: 0 }
    }

    // How many records there are.
    pub fn len(&self) -> usize
        ensures { result ≡ self.now.used }
    {
        self.used
    }

    // How many more there is room for.
    pub fn room(&self) -> usize
        ensures { result ≡ length self.now.memory.now - self.now.used }
    {
        self.memory.len() - self.used
    }

    // The records so far.
    pub fn records(&self) -> &[T]
        ensures { result.now ≡ first self.now.memory.now self.now.used }
    {
        &self.memory[..self.used]
    }

    // Puts a record behind the others, or gives it back where the tray is full.
    pub fn put(&mut self, item: T) -> Result<(), T>
        ensures put { Lays self.old.memory.now self.old.used item result self.new.memory.now self.new.used }
        ensures lent { self.new.memory.ghost_name ≡ self.old.memory.ghost_name }
    {
        if self.used == self.memory.len() {
            return Err(item);
        }
        self.memory[self.used] = item;
        self.used += 1;
        Ok(())
    }
}

impl<T: Copy> Tray<'_, T> {
    // Takes the last record back; it stays in the memory.
    pub fn pop(&mut self) -> Option<T>
        ensures pop { Lifts self.old.memory.now self.old.used result self.new.memory.now self.new.used }
        ensures lent { self.new.memory.ghost_name ≡ self.old.memory.ghost_name }
    {
        self.used = self.used.checked_sub(1)?;
        Some(self.memory[self.used])
    }
}
