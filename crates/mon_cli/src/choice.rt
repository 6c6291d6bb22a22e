//! Which command a word names.

ghost use Rattle.std.specs.Prelude.{◌≡◌, ◌≢◌, IfNone, IfSome};
ghost use Rattle.mon_cli.specs.Choice.{word_of};

/// A command of the program.
#[derive(Clone, Copy, PartialEq, Eq)]
pub enum Choice {
    Replay,
    Get,
    Next,
    Bulk,
    Walk,
    Set,
    Settings,
    Agent,
    Answer,
    Mib,
    Station,
    Report,
    Carry,
    Healthz,
    SelfTest,
    Rehearse,
}

impl Choice {
    /// The command that this word names.
    pub fn from_word(word: &str) -> Option<Self>
        ensures found { IfSome result (λ choice. word.now ≡ word_of choice) }
        ensures none { IfNone result ((choice : Choice) → word.now ≢ word_of choice) }
    {
        match word {
            "replay" => Some(Choice::Replay),
            "get" => Some(Choice::Get),
            "next" => Some(Choice::Next),
            "bulk" => Some(Choice::Bulk),
            "walk" => Some(Choice::Walk),
            "set" => Some(Choice::Set),
            "settings" => Some(Choice::Settings),
            "agent" => Some(Choice::Agent),
            "answer" => Some(Choice::Answer),
            "mib" => Some(Choice::Mib),
            "station" => Some(Choice::Station),
            "report" => Some(Choice::Report),
            "carry" => Some(Choice::Carry),
            "healthz" => Some(Choice::Healthz),
            "selftest" => Some(Choice::SelfTest),
            "rehearse" => Some(Choice::Rehearse),
            _ => None,
        }
    }

    /// The word that names this command.
    pub(crate) fn word<'a>(self) -> &'a str
        ensures { result.now ≡ word_of self }
    {
        match self {
            Choice::Replay => "replay",
            Choice::Get => "get",
            Choice::Next => "next",
            Choice::Bulk => "bulk",
            Choice::Walk => "walk",
            Choice::Set => "set",
            Choice::Settings => "settings",
            Choice::Agent => "agent",
            Choice::Answer => "answer",
            Choice::Mib => "mib",
            Choice::Station => "station",
            Choice::Report => "report",
            Choice::Carry => "carry",
            Choice::Healthz => "healthz",
            Choice::SelfTest => "selftest",
            Choice::Rehearse => "rehearse",
        }
    }
}
