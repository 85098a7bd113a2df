// What the requests on a stored sheet are answered, line by line.
use crate::stored::*;
use commands::element_of;
use divisions::{Janet, JanetLike, Thomas};
use elements::Kind;
use orderings::refusals::Refusal;
use sheets::answers::*;
use sheets::open_sheet::*;
use sheets::opening::{open, parts_for};
use sheets::parts::*;
use std::alloc::{AllocError, Global};
use std::io;

/// Tells what the calls on a stored sheet answer, a line for each.
pub(crate) fn tell<E: Kind>(
    rt: &HostRuntime,
    number: usize,
    stored: &Stored<'_>,
) -> io::Result<()> {
    let Stored {
        kind,
        variables,
        places,
        order_bytes,
        requests,
    } = *stored;
    print!(rt;
        "sheet {number}: kind {kind}, n {variables}, places {places}, order bytes {order_bytes}"
    )?;
    let mut sheet = opened::<E>(rt, parts_of(rt.alloc(), stored)?)?;
    for bytes in requests.chunks_exact(REQUEST_BYTES) {
        if let Some(request) = request_of(bytes) {
            perform(rt, &mut sheet, request)?;
        }
    }
    Ok(())
}

// The parts to open the sheet over.
fn parts_of<E: Kind>(heap: Global, stored: &Stored<'_>) -> Result<Parts<E>, AllocError> {
    let mut parts = parts_for(heap, stored.variables, usize::from(stored.places))?;
    parts.order = vec![in heap; 0; usize::from(stored.order_bytes)]?;
    Ok(parts)
}

// The sheet over the parts. Where none can be opened, they are handed back, and the calls are made
// on them as they are.
fn opened<E: Kind>(rt: &HostRuntime, parts: Parts<E>) -> io::Result<OpenSheet<E>> {
    match open(parts) {
        Ok(sheet) => {
            tell_edit(rt, Ok(()))?;
            Ok(sheet)
        }
        Err(Denied { back: parts, why }) => {
            tell_edit(rt, Err(why))?;
            Ok(OpenSheet { parts })
        }
    }
}

fn perform<E: Kind>(
    rt: &HostRuntime,
    sheet: &mut OpenSheet<E>,
    request: Request<'_>,
) -> io::Result<()> {
    match request {
        Request::Insert(element) => {
            print!(rt; "insert")?;
            match sheet.insert(element_of(element)) {
                Ok(place) => println!(rt; " ok {place}"),
                Err(refusal) => tell_edit(rt, Err(refusal)),
            }
        }
        Request::Withdraw(element) => {
            print!(rt; "withdraw")?;
            tell_edit(rt, sheet.withdraw(&element_of(element)))
        }
        Request::Arrange(list) => {
            print!(rt; "arrange {list:?}")?;
            tell_edit(rt, sheet.arrange(list))
        }
        Request::TellBar { place, variable } => tell_row(rt, sheet, place, variable, variable),
        Request::TellRows => {
            let Header { variables, rows } = sheet.parts.header;
            for place in 0..rows {
                tell_row(rt, sheet, place, 1, variables)?;
            }
            Ok(())
        }
        Request::WritePlace { place, element } => {
            if let Some(written) = sheet.parts.table.get_mut(usize::from(place)) {
                *written = element_of(element);
            }
            println!(rt; "place {place} written")
        }
        Request::WriteOrder(list) => {
            sheet.parts.order = list.to_vec(rt.alloc())?;
            println!(rt; "order bytes {list:?} written")
        }
        Request::WriteHeader { variables, rows } => {
            sheet.parts.header = Header { variables, rows };
            println!(rt; "n {variables}, row count {rows} written")
        }
    }
}

// Whether a call that writes was granted, and else the number of the refusal.
fn tell_edit(rt: &HostRuntime, edit: Result<(), Refusal>) -> io::Result<()> {
    match edit {
        Ok(()) => print!(rt; " ok")?,
        Err(refusal) => tell_refusal(rt, refusal)?,
    }
    println!(rt)
}

// A line for a place: for each variable from one to another the number of the bar, with a star
// where one follows it, and the limits by Janet, by Janet-like and by Thomas.
fn tell_row<E: Kind>(
    rt: &HostRuntime,
    sheet: &OpenSheet<E>,
    place: u8,
    from: u8,
    to: u8,
) -> io::Result<()> {
    print!(rt; "{place}")?;
    for variable in from..=to {
        let place = usize::from(place);
        print!(rt; " | x{variable}")?;
        tell_bar(rt, sheet.bar(place, variable))?;
        tell_limit(rt, sheet.limit(&Janet, place, variable))?;
        tell_limit(rt, sheet.limit(&JanetLike, place, variable))?;
        tell_limit(rt, sheet.limit(&Thomas, place, variable))?;
    }
    println!(rt)
}

fn tell_bar(rt: &HostRuntime, told: Result<Bar, Refusal>) -> io::Result<()> {
    match told {
        Ok(Bar { number, star }) => {
            let mark = if star { "*" } else { "" };
            print!(rt; " {number}{mark}")
        }
        Err(refusal) => tell_refusal(rt, refusal),
    }
}

fn tell_limit(rt: &HostRuntime, told: Result<Option<u16>, Refusal>) -> io::Result<()> {
    match told {
        Ok(Some(limit)) => print!(rt; " {limit}"),
        Ok(None) => print!(rt; " -"),
        Err(refusal) => tell_refusal(rt, refusal),
    }
}

fn tell_refusal(rt: &HostRuntime, refusal: Refusal) -> io::Result<()> {
    print!(rt; " no {}", u8::from(refusal))
}
