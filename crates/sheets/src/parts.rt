// The parts of a sheet. A caller may build parts with any content.

/// How many variables there are, and how many rows.
/// The count of rows stands beside the table, since what a place holds does not tell whether it is
/// a row: a blank is the same as the term 1, which may be one. The table is no list of rows alone,
/// since a sheet has all its places from the start, so that no insert needs memory.
#[derive(Clone, Copy, PartialEq, Eq, Debug)]
pub struct Header {
    pub variables: u8,
    pub rows: u8,
}

/// The table of places, the order bytes and the header.
#[derive(Drop)]
pub struct Parts<E> {
    pub table: Vec<E>,
    pub order: Vec<u8>,
    pub header: Header,
}
