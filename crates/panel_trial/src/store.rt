// As much of a line-name store as an entry reaches.
ghost use Rattle.panel_trial.specs.Stores.{Copied};

// An entry's offset has 16 bits and its length 8, so no entry, whatever its word, reaches further into a store.
pub(crate) const ENTRY_REACH: usize = u16::MAX as usize + u8::MAX as usize;

// Copies the bytes of a store that an entry reaches; how many there are.
pub(crate) fn copy_reached(store: &[u8], copy: &mut [u8; ENTRY_REACH]) -> usize
    ensures { Copied store.now copy.new result }
{
    let count = store.len().min(ENTRY_REACH);
    copy[..count].copy_from_slice(&store[..count]);
    count
}
