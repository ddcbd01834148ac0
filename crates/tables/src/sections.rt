// The table of the eight users' sections.
ghost use Rattle.std.specs.Prelude.{◌≡◌, Some, None};
ghost use Rattle.model.specs.Tools.{put, on_some};
ghost use Rattle.model.specs.Steps.{fresh};
ghost use Rattle.model.specs.Versions.{first_opened};
ghost use Rattle.tables.specs.View.{sections_of, holds_at, with_hold, Opened, Closed};

use crate::hold_number::HoldNumber;
use crate::section::Section;
use crate::user::User;
use model::refusal::Refusal;
use model::slot::Hold;
use order::open_section::OpenSection;
use order::ranked::foremost;

#[derive(Drop)]
pub struct Sections {
    // none for a section that is closed
    all: [Option<Section>; 8],
}

impl Sections {
    // All closed.
    pub fn new() -> Sections
        ensures { sections_of result ≡ (λ u. None) }
    {
        Sections { all: [None; 8] }
    }

    // The opening stamp of the user's section; refused if it is closed.
    pub fn opening(&self, user: User) -> Result<u64, Refusal>
        ensures { Opened self.now user.number result }
    {
        let section = self.all[usize::from(user)].ok_or(Refusal::NotOpen)?;
        Ok(section.opening)
    }

    // Refused if the user's section is open.
    pub fn closed(&self, user: User) -> Result<(), Refusal>
        ensures { Closed self.now user.number result }
    {
        if self.all[usize::from(user)].is_some() {
            return Err(Refusal::AlreadyOpen);
        }
        Ok(())
    }

    // What a hold is on; unset in a closed section.
    pub fn hold(&self, user: User, hold: HoldNumber) -> Hold
        ensures { result ≡ holds_at self.now user.number hold.number }
    {
        let section = self.all[usize::from(user)].as_ref();
        section.map_or(Hold::Unset, |section| section.hold(hold))
    }

    pub fn open(&mut self, user: User, stamp: u64)
        ensures { sections_of self.new ≡ put (sections_of self.old) user.number (Some (fresh stamp)) }
    {
        self.all[usize::from(user)] = Some(Section::new(stamp));
    }

    pub fn close(&mut self, user: User)
        ensures { sections_of self.new ≡ put (sections_of self.old) user.number None }
    {
        self.all[usize::from(user)] = None;
    }

    // One hold of the section is on something else, if it is open.
    pub fn set_hold(&mut self, user: User, hold: HoldNumber, on: Hold)
        ensures { sections_of self.new ≡ put (sections_of self.old) user.number (on_some (with_hold hold.number on) (sections_of self.old user.number)) }
    {
        if let Some(section) = &mut self.all[usize::from(user)] {
            section.set_hold(hold, on);
        }
    }

    // The open section with the lowest opening stamp.
    pub fn first_opened(&self) -> Option<OpenSection>
        ensures { result ≡ first_opened (sections_of self.now) }
    {
        let mut row = [None; 8];
        // By place: `from_fn` takes some three times as long.
        for (user, section) in self.all.iter().enumerate() {
            row[user] = section.as_ref().map(|section| OpenSection {
                stamp: section.opening,
                user: user as u8,
            });
        }
        foremost(&row)
    }
}
