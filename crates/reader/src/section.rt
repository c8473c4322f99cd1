// The sections of a text, and which line may come after which.
ghost use Rattle.std.specs.Prelude.{◌≡◌};
ghost use Rattle.tasks.specs.Records.{last_letter};
ghost use Rattle.reader.specs.Lines.{section_of, may_follow};

use records::Record;

#[derive(Clone, Copy)]
pub enum Section {
    // before the first line; a section like the others, since it admits a letter
    Nothing,
    Header,
    // channels and locks
    Objects,
    // what messages carry
    Carries,
    // a task begins
    Task,
    // what the task starts with
    Counts,
    Operations,
}

impl Section {
    // The section in which a record of this letter stands. No From: it is a step of `after`, and of no letter elsewhere.
    fn of(letter: char) -> Section
        ensures { result ≡ section_of letter }
    {
        match letter {
            'P' => Section::Header,
            'C' | 'K' => Section::Objects,
            'W' => Section::Carries,
            'T' => Section::Task,
            'Q' => Section::Counts,
            'S' | 'R' | 'A' | 'L' | 'F' => Section::Operations,
            _ => Section::Nothing,
        }
    }

    // The section in which the last of the records stands.
    pub fn after(records: &[Record]) -> Section
        ensures { result ≡ section_of (last_letter records.now) }
    {
        records
            .last()
            .map_or(Section::Nothing, |row| Section::of(row.letter))
    }

    // Whether a line of this letter may come after the section.
    pub fn admits(self, letter: char) -> bool
        ensures { result ≡ may_follow self letter }
    {
        match self {
            Section::Nothing => letter == 'P',
            Section::Header | Section::Objects => matches!(letter, 'C' | 'K' | 'W' | 'T'),
            Section::Carries => matches!(letter, 'W' | 'T'),
            Section::Task | Section::Counts => {
                matches!(letter, 'T' | 'Q' | 'S' | 'R' | 'A' | 'L' | 'F')
            }
            Section::Operations => matches!(letter, 'T' | 'S' | 'R' | 'A' | 'L' | 'F'),
        }
    }
}
