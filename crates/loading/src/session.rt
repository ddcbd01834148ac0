// A session: a home, and which of its records have been loaded.
ghost use Rattle.std.specs.Prelude.{◌≡◌, false, [], replicate, Decides, slice_index_or};
ghost use Rattle.interfaces.specs.Homes.{after_write};
ghost use Rattle.entries.specs.Entries.{entry_of};
ghost use Rattle.loading.specs.Loads.{Holds, load_reply, marks_loaded, reply_to, after_line, marks_after, row};
ghost use Rattle.loading.specs.Tables.{Shows, GoesOn, RowOf};

use crate::reply::Reply;
use entries::{Entry, read_entry};
use interfaces::home::Home;

// Whether the record is read back as `body`.
fn reads_back<H: Home>(home: &mut H, record: u16, body: &[u8; 16]) -> bool
    ensures said { Decides result (Holds (H.Home.meaning home.old) «record» body.now) }
    ensures left { H.Home.meaning home.new ≡ H.Home.meaning home.old }
{
    let mut found = [0; 16];
    home.read(record, &mut found).is_ok() && found == *body
}

// The marks of a session that has loaded nothing: a function of its own, since a proof unfolds them where they are written out.
fn none_loaded() -> [bool; 65535]
    ensures { result ≡ replicate 65535 false }
{
    [false; 65535]
}

// Clauses name its fields: the home's meaning has a function in it, which the value of a model may not have.
#[derive(Drop)]
pub struct Session<H> {
    home: H,
    // for each record that a home can have, whether it was loaded; a fixed table, since a session takes no heap
    loaded: [bool; 65535],
}

impl<H: Home> Session<H> {
    pub fn new(home: H) -> Session<H>
        ensures home { result.home ≡ home }
        ensures loaded { result.loaded ≡ replicate 65535 false }
        ensures table { Shows (H.Home.meaning home).bodies [] (H.Home.meaning result.home).bodies result.loaded }
    {
        Session {
            home,
            loaded: none_loaded(),
        }
    }

    // Ends the session and gives the home back.
    pub fn into_home(self) -> H
        ensures { result ≡ self.home }
    {
        let Session { home, .. } = self;
        home
    }

    // Writes an entry and reads it back.
    fn load(&mut self, wanted: Entry) -> Reply
        ensures said { result ≡ load_reply (H.Home.meaning self.old.home) wanted }
        ensures home { H.Home.meaning self.new.home ≡ after_write (H.Home.meaning self.old.home) wanted.«record» wanted.body }
        ensures loaded { self.new.loaded ≡ marks_loaded (H.Home.meaning self.old.home) wanted self.old.loaded }
    {
        let Entry { record, body } = wanted;
        if let Err(fault) = self.home.write(record, body) {
            return Reply::Refused { record, fault };
        }
        self.loaded[usize::from(record)] = true;
        if reads_back(&mut self.home, record, &body) {
            Reply::Written { record }
        } else {
            Reply::Differs { record }
        }
    }

    // Does what a line says, and tells what became of it.
    pub fn line(&mut self, line: &[u8]) -> Reply
        ensures said { result ≡ reply_to (H.Home.meaning self.old.home) (entry_of line.now) }
        ensures home { H.Home.meaning self.new.home ≡ after_line (H.Home.meaning self.old.home) (entry_of line.now) }
        ensures loaded { self.new.loaded ≡ marks_after (H.Home.meaning self.old.home) (entry_of line.now) self.old.loaded }
        ensures table { GoesOn (H.Home.meaning self.old.home).bodies self.old.loaded (record { line = line.now; reply = result }) (H.Home.meaning self.new.home).bodies self.new.loaded }
    {
        // A match: of what a closure changes, the prover keeps nothing.
        match read_entry(line) {
            Ok(wanted) => self.load(wanted),
            Err(bad) => Reply::Bad(bad),
        }
    }

    // Whether this session has loaded the record.
    fn was_loaded(&self, record: u16) -> bool
        ensures { result ≡ slice_index_or self.now.loaded «record» false }
    {
        self.loaded
            .get(usize::from(record))
            .copied()
            .unwrap_or(false)
    }

    // What a record holds, if this session has loaded it.
    pub fn row(&mut self, record: u16) -> Option<[u8; 16]>
        ensures said { result ≡ row (H.Home.meaning self.old.home) self.old.loaded «record» }
        ensures home { H.Home.meaning self.new.home ≡ H.Home.meaning self.old.home }
        ensures loaded { self.new.loaded ≡ self.old.loaded }
        ensures table { RowOf (H.Home.meaning self.old.home).bodies self.old.loaded «record» result }
    {
        if !self.was_loaded(record) {
            return None;
        }
        let mut body = [0; 16];
        self.home.read(record, &mut body).ok()?;
        Some(body)
    }
}
