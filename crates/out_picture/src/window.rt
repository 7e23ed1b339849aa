//! The columns that are shown.
ghost use Rattle.pd_match.specs.Views.{place_view};
ghost use Rattle.out_picture.specs.Layout.{column_x, event_point, first_from, greatest_column, is_shown, lane_y, left_of, right, window_around, window_from, window_of, window_of_all};
ghost use Rattle.out_picture.specs.Tables.{column_at, row_of};
ghost use Rattle.std.specs.Prelude.{◌≡◌, ◌-◌, length, slice_index};

use super::extent::Extent;
use def_format::PROCESS_LIMIT;
use out_svg::Point;
use pd_clock::Place;

/// How many columns are shown at most.
const COLUMN_LIMIT: u32 = 24;

/// How many columns are shown right of the evidence, if the run has them.
const COLUMNS_AFTER: u32 = 8;

/// How many columns are shown at most, if all are asked for.
const ALL_LIMIT: u32 = 65_535;

/// The columns that are shown.
#[derive(Clone, Copy, Debug)]
pub(crate) struct Window {
    /// The first of them, counted from 1.
    pub(crate) first: u32,
    /// How many they are.
    pub(crate) shown: u16,
    /// The left end of the lanes.
    pub(crate) left: u16,
}

/// The left end of the lanes, if the names of the processes are given this room.
fn left_of(names: u32) -> u16
    ensures { result ≡ left_of names }
{
    (names.min(600).max(182) + 38) as u16
}

/// The first column that is shown, if those from this one on are asked for.
fn first_from(column: u64, widest: u32) -> u32
    ensures { result ≡ first_from column widest }
{
    column.min(u64::from(widest)).max(1) as u32
}

impl Window {
    /// The columns that are shown, if this is asked for, a run has this many, its evidence ends in column `focus`, and
    /// the names of its processes are given this room.
    pub(crate) fn of(extent: Extent, widest: u32, focus: u32, names: u32) -> Window
        ensures { result ≡ window_of extent widest focus names }
    {
        match extent {
            Extent::Around => Window::around(widest, focus, names),
            Extent::From(column) => Window::beginning(column, widest, names),
            Extent::All => Window::of_all(widest, names),
        }
    }

    /// The columns that are shown, if those from this one on are asked for.
    fn beginning(column: u64, widest: u32, names: u32) -> Window
        ensures { result ≡ window_from column widest names }
    {
        let first = first_from(column, widest);
        let after = widest.saturating_sub(first.saturating_sub(1));
        Window {
            first,
            shown: after.min(COLUMN_LIMIT) as u16,
            left: left_of(names),
        }
    }

    /// The columns that are shown, if all are asked for.
    fn of_all(widest: u32, names: u32) -> Window
        ensures { result ≡ window_of_all widest names }
    {
        Window {
            first: 1,
            shown: widest.min(ALL_LIMIT) as u16,
            left: left_of(names),
        }
    }

    /// The columns that are shown, if a run has this many, its evidence ends in column `focus`, and the names of its
    /// processes are given this room.
    fn around(widest: u32, focus: u32, names: u32) -> Window
        ensures { result ≡ window_around widest focus names }
    {
        let last = widest.min(focus.saturating_add(COLUMNS_AFTER).max(COLUMN_LIMIT));
        Window {
            first: last.saturating_sub(COLUMN_LIMIT) + 1,
            shown: last.min(COLUMN_LIMIT) as u16,
            left: left_of(names),
        }
    }

    /// Whether a column is among them.
    pub(crate) fn shows(self, column: u32) -> bool
        ensures { result ≡ is_shown self column }
    {
        self.first <= column && u64::from(column) < u64::from(self.first) + u64::from(self.shown)
    }

    /// Where a column stands: those before and after what is shown stand at the ends of the lanes.
    pub(crate) fn column_x(self, column: u32) -> u32
        ensures { result ≡ column_x self column }
    {
        let shown = u64::from(column) + 1;
        let within = shown
            .saturating_sub(u64::from(self.first))
            .min(u64::from(self.shown) + 1);
        u32::from(self.left) + 48 * (within as u32)
    }

    /// The right end of the lanes.
    pub(crate) fn right(self) -> u32
        ensures { result ≡ right self }
    {
        u32::from(self.left) + 48 * (u32::from(self.shown) + 1)
    }

    /// Where an event stands.
    pub(crate) fn event_point(self, rows: &[Vec<u32>], place: Place) -> Point
        ensures { result ≡ event_point self (column_at rows.now) (place_view place) }
    {
        Point {
            x: self.column_x(column_at(rows, place)),
            y: lane_y(place.process),
        }
    }
}

/// Where the lane of a process stands; there are no more than `PROCESS_LIMIT`.
pub(crate) fn lane_y(process: usize) -> u32
    ensures { result ≡ lane_y process }
{
    150 + 100 * (process.min(PROCESS_LIMIT) as u32)
}

/// The column of a place, and 0 if there is no such event.
pub(crate) fn column_at(rows: &[Vec<u32>], place: Place) -> u32
    ensures { result ≡ column_at rows.now (place_view place) }
{
    let Some(row) = rows.get(place.process) else {
        return 0;
    };
    match row.get(place.number as usize) {
        Some(column) => *column,
        None => 0,
    }
}

/// The greatest column of all events.
pub(crate) fn widest_column(rows: &[Vec<u32>]) -> u32
    ensures { result ≡ greatest_column (column_at rows.now) (λ p. length (row_of rows.now p) - 1) (length rows.now) }
{
    let mut widest = 0;
    for p in 0..rows.len() {
        let number = rows[p].len() as u64;
        let last = Place {
            process: p,
            number: number.saturating_sub(1),
        };
        widest = widest.max(column_at(rows, last));
    }
    widest
}

/// How many events of a process are in a cut: none, if the cut has no count for it.
pub(crate) fn count_at(counts: &[u64], process: usize) -> u64
    ensures { result ≡ slice_index counts.now process }
{
    match counts.get(process) {
        Some(count) => *count,
        None => 0,
    }
}

/// The greatest column of the last events in a cut.
pub(crate) fn greatest_column(rows: &[Vec<u32>], counts: &[u64]) -> u32
    ensures { result ≡ greatest_column (column_at rows.now) (λ p. slice_index counts.now p) (length rows.now) }
{
    let mut greatest = 0;
    for p in 0..rows.len() {
        let last = Place {
            process: p,
            number: count_at(counts, p),
        };
        greatest = greatest.max(column_at(rows, last));
    }
    greatest
}
