// A table of limits: an array for each row, in which variable v, counted from 1, has its limit at
// index v - 1.
ghost use Rattle.std.specs.Prelude.{◌≡◌};
ghost use Rattle.cones.specs.Tables.{limit_in, limits_at};

/// The limits of a row, one for each of eight variables.
pub type RowLimits = [Option<u16>; 8];

// The limits of a row past the end of the table.
static UNLIMITED: RowLimits = [None; 8];

/// The limit of a variable, which counts from 1; none where there is no such variable.
pub fn limit_of(limits: &RowLimits, variable: u8) -> Option<u16>
    ensures { result ≡ limit_in limits.now variable }
{
    let index = (variable as usize).checked_sub(1)?;
    *limits.get(index)?
}

/// The limits of the row at a place, without a copy; none past the end of the table.
pub(crate) fn lent_limits(table: &[RowLimits], place: usize) -> &RowLimits
    ensures { result.now ≡ limits_at table.now place }
{
    table.get(place).unwrap_or(&UNLIMITED)
}

/// The limits of the row at a place; none past the end of the table.
pub fn limits_at(table: &[RowLimits], place: usize) -> RowLimits
    ensures { result ≡ limits_at table.now place }
{
    *lent_limits(table, place)
}
