//! The streams of a session, each read on its own thread.
ghost use Rattle.def_format.specs.Histories.{fresh_row};
ghost use Rattle.pd_gather.specs.Gathering.{AreReady, AreSameSeats, HasGathered, KeepsSeen, LeavesSeats};
ghost use Rattle.pd_gather.specs.ReadStreams.{AreReadOf};
ghost use Rattle.pd_gather.specs.Views.{ReadingFits, results_view};
ghost use Rattle.pd_register.specs.Seats.{AreSeats, IsSeatOf, posted_row, stream_of};
ghost use Rattle.pd_spec.specs.Views.{document_view};
ghost use Rattle.std.specs.Prelude.{◌≡◌, ◌++◌, ◌∷◌, [], false, All, IfOk, IsOk, length, map, vec_len};
ghost use Rattle.std.specs.Thread.{IsSync};

use super::byte_source::ByteSource;
use super::gather_fault::GatherFault;
use super::gathered::Gathered;
use super::readers::read_from;
use pd_events::StreamFault;
use pd_register::{Register, Seat};
use pd_spec::Spec;
use read_traces::Trace;
use std::alloc::{AllocError, Global};
use std::sync::Wait;
use std::thread::{Threads, join_mut};

/// What each stream gave, if memory didn't run out.
pub(super) type Readings = Result<Vec<Result<Trace, StreamFault>>, AllocError>;

/// What one stream gives.
fn read_one<T: Wait, R: ByteSource>(
    rt: &T,
    alloc: Global,
    spec: &Spec,
    reader: &mut R,
    register: &Register,
    seat: &mut Seat,
) -> Readings
    requires own { IsSeatOf register.now seat.old }
    requires fresh { posted_row seat.old ≡ fresh_row }
    requires open { R.has_ended reader.old ≡ false }
    ensures seat { IsSeatOf register.now seat.new × (stream_of seat.new ≡ stream_of seat.old) }
    ensures seen { KeepsSeen (seat.old ∷ []) (seat.new ∷ []) }
    ensures read { IfOk result (λ readings. AreReadOf (document_view spec.now).names
        (R.left reader.old ∷ []) (results_view readings.items) (posted_row seat.new ∷ [])) }
    ensures fit { IfOk result (λ readings. All (ReadingFits (document_view spec.now).names) readings.items) }
    ensures left { LeavesSeats (document_view spec.now).names (R.left reader.old ∷ []) (seat.new ∷ []) }
{
    let given = read_from(rt, alloc, spec, reader, register, seat)?;
    let mut readings = Vec::with_capacity(alloc, 1)?;
    readings.push(given)?;
    Ok(readings)
}

/// What two halves of the streams give, one after the other.
fn both_halves(first: Readings, last: Readings) -> Readings
    ensures ok { IfOk result (λ readings. IfOk first (λ f. IfOk last (λ l.
        readings.items ≡ f.items ++ l.items))) }
    ensures both { IsOk result → IsOk first × IsOk last }
{
    let mut readings = first?;
    let mut others = last?;
    readings.append(&mut others)?;
    Ok(readings)
}

/// What the streams give, by halves, one of them in a new thread.
pub(super) fn read_halves<T: Threads + Wait + Sync, R: ByteSource + Send>(
    rt: &T,
    alloc: &Global,
    spec: &Spec,
    register: &Register,
    readers: &mut [R],
    seats: &mut [Seat],
) -> Readings
    requires ready { AreReady R.has_ended register.now readers.old seats.old }
    ensures same { AreSameSeats register.now seats.old seats.new }
    ensures seen { KeepsSeen seats.old seats.new }
    ensures gathered { IfOk result (λ readings. HasGathered (document_view spec.now).names
        (map R.left readers.old) readings.items seats.new) }
    ensures left { LeavesSeats (document_view spec.now).names (map R.left readers.old) seats.new }
{
    if readers.len() == 0 {
        return Ok(Vec::new(*alloc));
    }
    if readers.len() == 1 {
        return read_one(rt, *alloc, spec, &mut readers[0], register, &mut seats[0]);
    }
    let middle = readers.len() / 2;
    let (first_seats, last_seats) = seats.split_at_mut(middle);
    let (first_readers, last_readers) = readers.split_at_mut(middle);
    let (first, last) = join_mut(
        rt,
        &mut || -> Readings
            requires { IsSync T.row × AreReady R.has_ended register.now first_readers.now first_seats.now }
            ensures { AreSameSeats register.entry.now first_seats.entry.now first_seats.exit.now
                × IfOk result (λ readings. HasGathered (document_view spec.entry.now).names
                (map R.left first_readers.entry.now) readings.items first_seats.exit.now)
                × KeepsSeen first_seats.entry.now first_seats.exit.now
                × LeavesSeats (document_view spec.entry.now).names
                (map R.left first_readers.entry.now) first_seats.exit.now }
        { read_halves(rt, alloc, spec, register, first_readers, first_seats) },
        &mut || -> Readings
            requires { IsSync T.row × AreReady R.has_ended register.now last_readers.now last_seats.now }
            ensures { AreSameSeats register.entry.now last_seats.entry.now last_seats.exit.now
                × IfOk result (λ readings. HasGathered (document_view spec.entry.now).names
                (map R.left last_readers.entry.now) readings.items last_seats.exit.now)
                × KeepsSeen last_seats.entry.now last_seats.exit.now
                × LeavesSeats (document_view spec.entry.now).names
                (map R.left last_readers.entry.now) last_seats.exit.now }
        { read_halves(rt, alloc, spec, register, last_readers, last_seats) },
    );
    both_halves(first, last)
}

/// Reads the streams of a session, each on its own thread, while it posts their steps in the register. It returns once
/// all threads are joined.
///
/// # Errors
/// If memory runs out, for one stream or for several; the seats keep their posts. Each stream was then read, or was
/// read in part: its seat's posts are the first of those that the bytes read until then lead to, without the end or
/// the fault. What each seat has seen grows, as it does without an error.
pub fn gather<T: Threads + Wait + Sync, R: ByteSource + Send + Drop>(
    rt: &T,
    alloc: Global,
    spec: &Spec,
    readers: Vec<R>,
    register: &Register,
    seats: &mut [Seat],
) -> Result<Gathered, GatherFault>
    requires seats { AreSeats register.now seats.old }
    requires fresh { All (λ s. posted_row s ≡ fresh_row) seats.old }
    requires one_each { vec_len readers ≡ length seats.old }
    requires open { All (λ r. R.has_ended r ≡ false) readers.items }
    ensures seats { AreSeats register.now seats.new }
    ensures seen { KeepsSeen seats.old seats.new }
    ensures streams { IfOk result (λ gathered. gathered.streams ≡ vec_len readers) }
    ensures read { IfOk result (λ gathered. AreReadOf (document_view spec.now).names
        (map R.left readers.items) (results_view gathered.readings.items) (map posted_row seats.new)) }
    ensures fit { IfOk result (λ gathered. All (ReadingFits (document_view spec.now).names) gathered.readings.items) }
    ensures left { LeavesSeats (document_view spec.now).names (map R.left readers.items) seats.new }
{
    let mut readers = readers;
    let streams = readers.len() as u64;
    let readings = read_halves(rt, &alloc, spec, register, readers.as_mut_slice(), seats)?;
    Ok(Gathered { streams, readings })
}
