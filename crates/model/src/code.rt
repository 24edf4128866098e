ghost use Rattle.std.specs.Prelude.{◌≡◌};
ghost use Rattle.model.specs.Numbers.{number_of, answer_of, usableb};

// Why a call is refused, with the number that is given back. The first nine are DEN0022's, under the names of the Rust's
// `ErrorCode`; a platform's error is one of them too. The rest are the port's own.
#[derive(Clone, Copy, PartialEq, Eq)]
pub enum Refusal {
    NotSupported = -1,
    InvalidParameters = -2,
    Denied = -3,
    AlreadyOn = -4,
    OnPending = -5,
    InternalFailure = -6,
    NotPresent = -7,
    Disabled = -8,
    InvalidAddress = -9,
    // topology or platform not acceptable
    BadBoard = 101,
    // state record not sound; an entry set over a held one
    NotSound = 102,
    // no such caller
    NoCaller = 103,
    // the caller is not running; the CPU asked about is not On
    NotRunning = 104,
    // no boot or finish is due
    NotDue = 105,
    // platform answer unusable
    Unusable = 106,
    // suspend while in OS-initiated mode
    OsInitiated = 107,
    // record malformed
    Malformed = 108,
    // level, domain or CPU outside what was asked about
    Outside = 109,
    // output or input buffer too small
    NoRoom = 110,
    // a suspend state beside a request that is not RUN
    SuspendBesideRequest = 111,
    // budget spent with bytes left
    BudgetSpent = 112,
}

// DEN0022's errors, from -1 to -9.
const ERRORS: [Refusal; 9] = [
    Refusal::NotSupported,
    Refusal::InvalidParameters,
    Refusal::Denied,
    Refusal::AlreadyOn,
    Refusal::OnPending,
    Refusal::InternalFailure,
    Refusal::NotPresent,
    Refusal::Disabled,
    Refusal::InvalidAddress,
];

// The number given back, with its sign: 0 where the call is accepted.
pub fn number(code: Result<(), Refusal>) -> i32
    ensures { result ≡ number_of code }
{
    match code {
        Ok(()) => 0,
        Err(refusal) => refusal as i32,
    }
}

// A platform's answer, read from its byte: the one place where that byte gets its sign.
pub fn of_answer(byte: u8) -> Result<(), Refusal>
    ensures { result ≡ answer_of byte }
{
    if byte == 0 {
        return Ok(());
    }
    if byte < 247 {
        return Err(Refusal::Unusable);
    }
    let at = (255 - byte) as usize;
    Err(ERRORS[at])
}

// Is the byte an answer at all: 0, or an error of -1 to -9?
pub fn is_answer(byte: u8) -> bool
    ensures { result ≡ usableb byte }
{
    (byte == 0) | (247 <= byte)
}
