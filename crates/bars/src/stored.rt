// The form of the stored sheets.

/// How many bytes a stored request has.
pub(crate) const REQUEST_BYTES: usize = 19;

/// How a sheet is opened, and the requests on it.
#[derive(Clone, Copy)]
pub(crate) struct Stored<'a> {
    pub(crate) kind: u8,
    pub(crate) variables: u8,
    pub(crate) places: u8,
    pub(crate) order_bytes: u8,
    pub(crate) requests: &'a [u8],
}

/// A request, with the part of the file that holds its element or its list.
#[derive(Clone, Copy)]
pub(crate) enum Request<'a> {
    Insert(&'a [u8]),
    Withdraw(&'a [u8]),
    Arrange(&'a [u8]),
    TellBar { place: u8, variable: u8 },
    TellRows,
    WritePlace { place: u8, element: &'a [u8] },
    WriteOrder(&'a [u8]),
    WriteHeader { variables: u8, rows: u8 },
}

/// The sheet at the front, if there is a whole one, and what follows it.
pub(crate) fn first_sheet(bytes: &[u8]) -> Option<(Stored<'_>, &[u8])> {
    let [kind, variables, places, order_bytes, high, low, after @ ..] = bytes else {
        return None;
    };
    let count = usize::from(u16::from_be_bytes([*high, *low]));
    let (requests, rest) = after.split_at_checked(count * REQUEST_BYTES)?;
    let stored = Stored {
        kind: *kind,
        variables: *variables,
        places: *places,
        order_bytes: *order_bytes,
        requests,
    };
    Some((stored, rest))
}

/// The request that its bytes say, if its letter is one of a request.
pub(crate) fn request_of(bytes: &[u8]) -> Option<Request<'_>> {
    match bytes {
        [b'i', _, element @ ..] => Some(Request::Insert(element)),
        [b'w', _, element @ ..] => Some(Request::Withdraw(element)),
        [b'a', length, list @ ..] => Some(Request::Arrange(front(list, *length))),
        [b'b', place, variable, ..] => Some(Request::TellBar {
            place: *place,
            variable: *variable,
        }),
        [b't', ..] => Some(Request::TellRows),
        [b'p', place, element @ ..] => Some(Request::WritePlace {
            place: *place,
            element,
        }),
        [b'o', length, list @ ..] => Some(Request::WriteOrder(front(list, *length))),
        [b'h', variables, rows, ..] => Some(Request::WriteHeader {
            variables: *variables,
            rows: *rows,
        }),
        _ => None,
    }
}

// The first bytes of a list, as many as are asked for or all there are.
fn front(list: &[u8], length: u8) -> &[u8] {
    list.get(..usize::from(length)).unwrap_or(list)
}
