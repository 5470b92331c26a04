// Why a request is refused, with the number by which the papers list it.
ghost use Rattle.std.specs.Prelude.{◌≡◌};
ghost use Rattle.state.specs.Refusal.{number, outcome};

#[derive(Clone, Copy, Debug, PartialEq, Eq)]
pub enum Refusal {
    // A start table out of its ranges.
    BadConfig,

    // No such processor.
    NoProcessor,

    // An action that is none, or an operand that does not fit it; a thread that is not there.
    BadOperand,

    // A call elsewhere than at App.
    CallAway,

    // A go at App.
    GoAtApp,

    // An unlock by a thread that is not the owner.
    NotOwner,

    // A create of a thread that is not new.
    NotNew,

    // No room for a further move.
    Full,

    // Going to a step that is not kept.
    NoStep,

    // A journal or a buffer that is too short.
    TooShort,

    // A picture of the wrong length.
    BadLength,

    // A picture's field, register or zero byte.
    BadField,

    // A picture's chains.
    BadChain,

    // A picture's registers against its threads.
    BadHolder,

    // A record that breaks a rule, or would after the step.
    BadRecord,

    // A journal whose moves do not give the record.
    BadJournal,

    // Scripts that are none.
    BadScript,

    // An exit by a thread that owns a mutex.
    StillOwner,
}

impl Refusal {
    #[tactic(auto, unfolding(crate::specs::Refusal::number))]
    pub fn number(self) -> u8
        ensures { result ≡ number self }
    {
        match self {
            Refusal::BadConfig => 1,
            Refusal::NoProcessor => 2,
            Refusal::BadOperand => 3,
            Refusal::CallAway => 4,
            Refusal::GoAtApp => 5,
            Refusal::NotOwner => 6,
            Refusal::NotNew => 7,
            Refusal::Full => 8,
            Refusal::NoStep => 9,
            Refusal::TooShort => 10,
            Refusal::BadLength => 11,
            Refusal::BadField => 12,
            Refusal::BadChain => 13,
            Refusal::BadHolder => 14,
            Refusal::BadRecord => 15,
            Refusal::BadJournal => 16,
            Refusal::BadScript => 19,
            Refusal::StillOwner => 21,
        }
    }
}

// The number of an answer: 0 where it is no refusal.
#[tactic(auto, unfolding(crate::specs::Refusal::outcome))]
pub fn outcome<T: Copy>(answer: Result<T, Refusal>) -> u8
    ensures { result ≡ outcome answer }
{
    match answer {
        Ok(_) => 0,
        Err(refusal) => refusal.number(),
    }
}
