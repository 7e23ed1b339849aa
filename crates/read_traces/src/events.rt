//! The events of a process, in columns.
ghost use Rattle.read_traces.specs.Columns.{entry_with, event_with, part, places_in, seen_kind_view, tag_view, values_in};
ghost use Rattle.read_traces.specs.Views.{event_view, kind_view};
ghost use Rattle.def_model.specs.Events as events;
ghost use Rattle.std.specs.Prelude.{◌≡◌, ◌+◌, ◌<◌, ◌≤◌, ◌^◌, ◌++◌, [], ◌∷◌, IfOk, OnErr, OnOk, Some, length, option_map, slice_get, take};

use super::entry::{Entry, Tag};
use super::{Event, EventKind, Kind, Numbers, Settings};
use std::alloc::{AllocError, Global};
use std::marker::Model;

/// The events of a process. The bytes of all ids stand one after another, and so do the variables of all settings and
/// their values, so no event takes memory of its own. A clause sees a list of events.
#[derive(Drop)]
pub struct Events {
    entries: Vec<Entry>,
    ids: Vec<u8>,
    places: Vec<u8>,
    values: Numbers,
}

impl Model for Events {
    ghost use Rattle.def_model.specs.Events as events;
    ghost use Rattle.read_traces.specs.Columns.{columns_view, AreWithin};
    ghost use Rattle.std.specs.Prelude.{List};

    ghost Value = { List events.Event };

    ghost view = { λ e. columns_view e.ids.items e.places.items e.values e.entries.items };

    ghost invariant = { λ e. AreWithin e.ids.items e.places.items e.values e.entries.items };
}

/// The bytes that stand from here on.
fn bytes_at(ids: &[u8], start: u32, len: u32) -> &[u8]
    requires { start + len ≤ length ids.now }
    ensures { result.now ≡ part start len ids.now }
{
    let rest = &ids[start as usize..];
    &rest[..len as usize]
}

/// The kind of the event with this tag and this id.
fn kind_of<'a>(tag: Tag, id: &'a [u8]) -> Kind<'a>
    ensures { seen_kind_view result ≡ tag_view tag id.now }
{
    match tag {
        Tag::Local => Kind::Local,
        Tag::Send => Kind::Send(id),
        Tag::Recv => Kind::Recv(id),
    }
}

/// The tag and the id of an event of this kind.
fn tagged(kind: Kind<'_>) -> (Tag, &[u8])
    ensures { tag_view result.0 result.1.now ≡ seen_kind_view kind.entry }
{
    match kind {
        Kind::Local => (Tag::Local, &[]),
        Kind::Send(id) => (Tag::Send, id),
        Kind::Recv(id) => (Tag::Recv, id),
    }
}

/// The kind of event, as it is seen among others.
pub fn seen(kind: &EventKind) -> Kind<'_>
    ensures { seen_kind_view result ≡ kind_view kind.now }
{
    match kind {
        EventKind::Local => Kind::Local,
        EventKind::Send(id) => Kind::Send(id.as_bytes()),
        EventKind::Recv(id) => Kind::Recv(id.as_bytes()),
    }
}

/// The number in half its memory, if there is room for it.
fn narrow(n: usize) -> Result<u32, AllocError>
    ensures { IfOk result (λ narrow. narrow ≡ n) }
{
    if n > u32::MAX as usize {
        return Err(AllocError);
    }
    Ok(n as u32)
}

/// Where the parts of an event stand, if there is room for the numbers.
fn entry_at(
    tag: Tag,
    id_start: usize,
    id_len: usize,
    set_start: usize,
    set_len: usize,
) -> Result<Entry, AllocError>
    ensures { IfOk result (λ made. made ≡ entry_with tag id_start id_len set_start set_len) }
{
    Ok(Entry {
        tag,
        id_start: narrow(id_start)?,
        id_len: narrow(id_len)?,
        set_start: narrow(set_start)?,
        set_len: narrow(set_len)?,
    })
}

/// The place in a byte, if it is below 256.
fn narrow_place(place: usize) -> Result<u8, AllocError>
    ensures { IfOk result (λ narrow. narrow ≡ place) }
{
    if place > u8::MAX as usize {
        return Err(AllocError);
    }
    Ok(place as u8)
}

/// Adds the variables of these settings. If there is no room the column keeps what it had, and may have more after it.
fn add_places(places: &mut Vec<u8>, new: &[(usize, i64)]) -> Result<(), AllocError>
    ensures ok { OnOk result (places.new.items ≡ places.old.items ++ places_in new.now) }
    ensures err { OnErr result (take (length places.old.items) places.new.items ≡ places.old.items) }
{
    for setting in new {
        places.push(narrow_place(setting.0)?)?;
    }
    Ok(())
}

/// Adds the values of these settings. If memory runs out the column keeps what it had, and may have more after it.
fn add_values(values: &mut Numbers, new: &[(usize, i64)]) -> Result<(), AllocError>
    ensures ok { OnOk result (values.new ≡ values.old ++ values_in new.now) }
    ensures err { OnErr result (take (length values.old) values.new ≡ values.old) }
{
    for setting in new {
        values.push(setting.1)?;
    }
    Ok(())
}

/// Adds to each column. If there is no room the columns keep what they had, and may have more after it.
fn add(
    entries: &mut Vec<Entry>,
    ids: &mut Vec<u8>,
    places: &mut Vec<u8>,
    values: &mut Numbers,
    made: Entry,
    id: &[u8],
    new: &[(usize, i64)],
) -> Result<(), AllocError>
    ensures entries { OnOk result (entries.new.items ≡ entries.old.items ++ made ∷ []) }
    ensures ids { OnOk result (ids.new.items ≡ ids.old.items ++ id.now) }
    ensures places { OnOk result (places.new.items ≡ places.old.items ++ places_in new.now) }
    ensures values { OnOk result (values.new ≡ values.old ++ values_in new.now) }
    ensures err_entries { OnErr result (entries.new.items ≡ entries.old.items) }
    ensures err_ids { OnErr result (take (length ids.old.items) ids.new.items ≡ ids.old.items) }
    ensures err_places { OnErr result (take (length places.old.items) places.new.items ≡ places.old.items) }
    ensures err_values { OnErr result (take (length values.old) values.new ≡ values.old) }
{
    ids.extend_from_slice(id)?;
    add_places(places, new)?;
    add_values(values, new)?;
    entries.push(made)?;
    Ok(())
}

impl Events {
    /// No events. It takes no memory.
    pub fn new(alloc: Global) -> Events
        ensures { result ≡ [] }
    {
        Events {
            entries: Vec::new(alloc),
            ids: Vec::new(alloc),
            places: Vec::new(alloc),
            values: Numbers::new(alloc),
        }
    }

    /// How many events there are.
    pub fn len(&self) -> usize
        ensures { result ≡ length self.now }
    {
        self.entries.len()
    }

    /// Adds an event.
    ///
    /// # Errors
    /// If memory runs out, or all ids have 2^32 bytes or more, or there are 2^32 settings or more, or a variable has
    /// the place 256 or more, or 2^30 values have no room in 32 bits. The events are then as they were.
    pub fn push(&mut self, event: &Event) -> Result<(), AllocError>
        ensures ok { OnOk result (self.new ≡ self.old ++ event_view event.now ∷ []) }
        ensures err { OnErr result (self.new ≡ self.old) }
    {
        self.push_parts(seen(&event.kind), &event.sets)
    }

    /// Adds an event of this kind that sets these variables.
    ///
    /// # Errors
    /// As `push`.
    pub fn push_parts(&mut self, kind: Kind<'_>, sets: &[(usize, i64)]) -> Result<(), AllocError>
        ensures ok { OnOk result (self.new ≡ self.old ++ event_with (seen_kind_view kind.entry) sets.now ∷ []) }
        ensures err { OnErr result (self.new ≡ self.old) }
    {
        let (tag, id) = tagged(kind);
        let (ids, settings) = (self.ids.len(), self.places.len());
        let made = entry_at(tag, ids, id.len(), settings, sets.len())?;
        match add(
            &mut self.entries,
            &mut self.ids,
            &mut self.places,
            &mut self.values,
            made,
            id,
            sets,
        ) {
            Ok(()) => Ok(()),
            Err(refused) => {
                self.ids.truncate(ids);
                self.places.truncate(settings);
                self.values.truncate(settings);
                Err(refused)
            }
        }
    }

    /// Keeps the first `n` events, or all if there are no more.
    pub fn truncate(&mut self, n: usize)
        ensures { self.new ≡ take n self.old }
    {
        self.entries.truncate(n);
    }

    /// The kind of the event at this index.
    pub fn kind(&self, k: usize) -> Kind<'_>
        requires { k < length self.now }
        ensures kind { option_map (λ (event : events.Event). event.kind) (slice_get self.now k)
            ≡ Some (seen_kind_view result) }
        ensures small { k < 2 ^ 63 }
    {
        let entry = self.entries[k];
        kind_of(entry.tag, bytes_at(&self.ids, entry.id_start, entry.id_len))
    }

    /// What the event at this index sets.
    pub fn settings(&self, k: usize) -> Settings<'_>
        requires { k < length self.now }
        ensures { option_map (λ (event : events.Event). event.sets) (slice_get self.now k) ≡ Some result }
    {
        let entry = self.entries[k];
        let places = bytes_at(&self.places, entry.set_start, entry.set_len);
        Settings::new(places, &self.values, entry.set_start as usize)
    }
}
