// The reports of one reading client: a row of n + 1 entries for each of the n servers.
// Entries 0 to n - 1 of a row are the slots, and entry n is the server's latest pair.
ghost use Rattle.std.specs.Prelude.{◌≡◌, ◌+◌, ◌*◌, ◌≤◌, length};

use timestamps::Timestamp;
use values::Value;

// An entry: the pair that it reports, or nothing.
pub type Report<S, V> = Option<(S, V)>;

// The reports in memory that the caller lends.
#[derive(Drop)]
pub(crate) struct Reports<'a, S, V> {
    pub(crate) entries: &'a mut [Report<S, V>],
    pub(crate) n: u8,
    ghost few: { n ≤ 16 },
    ghost room: { length entries.now ≡ n * (n + 1) },
}

impl<'a, S, V> Reports<'a, S, V> {
    // The reports of n servers in this memory.
    pub(crate) fn new(entries: &'a mut [Report<S, V>], n: u8) -> Reports<'a, S, V>
        requires few { n ≤ 16 }
        requires room { length entries.old ≡ n * (n + 1) }
        ensures memory { result.entries.ghost_name ≡ entries.entry.ghost_name }
        ensures content { result.entries.now ≡ entries.old }
        ensures servers { result.n ≡ n }
    {
        Reports { entries, n }
    }
}

// How many entries the reports of n servers have.
pub fn entries_for(n: u8) -> usize
    ensures { result ≡ n * (n + 1) }
{
    usize::from(n) * (usize::from(n) + 1)
}

impl<S: Timestamp, V: Value> Reports<'_, S, V> {
    ghost use Rattle.std.specs.Prelude.{slice_set};
    ghost use Rattle.reading.specs.Reports.{cell, Kept};

    // Where an entry of a server's row stands.
    fn index_of(&self, server: u8, place: u8) -> usize
        ensures { result ≡ server * (self.now.n + 1) + place }
    {
        usize::from(server) * (usize::from(self.n) + 1) + usize::from(place)
    }

    // An entry of a server's row; past the end of the memory nothing is reported.
    pub(crate) fn entry(&self, server: u8, place: u8) -> Report<S, V>
        ensures { result ≡ cell self.now.n self.now.entries.now server place }
    {
        let index = self.index_of(server, place);
        self.entries.get(index).copied().flatten()
    }

    // Writes an entry of a server's row; past the end of the memory nothing is written.
    pub(crate) fn put(&mut self, server: u8, place: u8, report: Report<S, V>)
        ensures kept { Kept self.old self.new }
        ensures written { self.new.entries.now ≡ slice_set self.old.entries.now (server * (self.old.n + 1) + place) report }
    {
        let index = self.index_of(server, place);
        // Kept: of a write through get_mut a proof learns the length alone.
        if index < self.entries.len() {
            self.entries[index] = report;
        }
    }
}
