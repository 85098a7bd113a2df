// Calls as values, what is replied to them, and a sheet in either state.
ghost use Rattle.std.specs.Prelude.{◌≡◌, None};
ghost use Rattle.runs.specs.declared.requests.NotGranted.TheVariants.{Refused};

use orderings::refusals::Refusal;
use sheets::answers::*;
use sheets::open_sheet::*;
use sheets::settled_sheet::*;

/// A call on a sheet with what it is handed.
#[derive(Clone, Copy, PartialEq, Eq, Debug)]
pub enum Request<'a, E, D> {
    Insert(E),
    Withdraw(E),
    Arrange(&'a [u8]),
    /// A place and a variable.
    Bar(usize, u8),
    Limit(D, usize, u8),
    Verdict(D),
    Weigh(D, &'a [u8]),
    Settle(D),
    Locate(E),
    Reopen,
}

/// What a granted call tells.
#[derive(Clone, Copy, PartialEq, Eq, Debug)]
pub enum Grant<E> {
    Done,
    Place(usize),
    Bar(Bar),
    Limit(Option<u16>),
    Verdict(Verdict<E>),
    Settled(ServingOrdering),
}

/// Why a call is not granted.
#[derive(Clone, Copy, PartialEq, Eq, Debug)]
pub enum NotGranted {
    /// The sheet's state does not take the call.
    NotTaken,
    Refused(Refusal),
}

impl From<Refusal> for NotGranted {
    ghost from_gives = { λ why n. n ≡ Refused why };

    fn from(why: Refusal) -> NotGranted {
        NotGranted::Refused(why)
    }
}

/// What is replied to a call.
pub type Reply<E> = Result<Grant<E>, NotGranted>;

/// A call of a run, with the place for its reply, which is empty until the call is performed.
#[derive(Clone, Copy, PartialEq, Eq, Debug)]
pub struct Exchange<'a, E, D> {
    pub request: Request<'a, E, D>,
    pub reply: Option<Reply<E>>,
}

// A call that is not performed yet.
impl<'a, E, D> From<Request<'a, E, D>> for Exchange<'a, E, D> {
    ghost from_gives = { λ request x. x ≡ record { request = request; reply = None } };

    fn from(request: Request<'a, E, D>) -> Exchange<'a, E, D> {
        Exchange {
            request,
            reply: None,
        }
    }
}

/// A sheet, open or settled.
#[derive(Drop)]
pub enum Sheet<E, D> {
    Open(OpenSheet<E>),
    Settled(SettledSheet<E, D>),
}
