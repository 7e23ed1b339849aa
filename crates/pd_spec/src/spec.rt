//! The session document.
ghost use Rattle.std.specs.Prelude.{◌≡◌, ◌<◌, ◌≤◌, Some, false, true, length, map, option_map, slice_get, string_bytes};
ghost use Rattle.serde_json.specs.View.{view};
ghost use Rattle.def_format.specs.Documents.{width_of};
ghost use Rattle.def_format.specs.Limits.{document_byte_limit};
ghost use Rattle.pd_spec.specs.Sound.{IsSound};

use super::changes::with_options;
use super::json_bytes::json_value;
use super::options::Options;
use super::outline::Outline;
use super::predicates::parse_all;
use super::version::version_of;
use super::{NamedPred, SpecFault};
use def_format::{DEFAULT_WIDTH, DOCUMENT_BYTE_LIMIT, PROCESS_LIMIT, Version};
use pd_pred::Names;
use read_traces::InitialValues;
use serde_json::Value;
use std::alloc::Global;

/// What a session document says: the processes with their variables and initial values, the predicates, the width and
/// the version.
#[derive(Drop)]
pub struct Spec {
    names: Names,
    initial: Vec<Vec<i64>>,
    predicates: Vec<NamedPred>,
    width: u64,
    version: Version,
    beyond_width: bool,
    /// What holds of each document: the bounds of its parts, and that their names are names.
    pub ghost sound: { IsSound names (map (λ row. row.items) initial.items)
        (map (λ predicate. string_bytes predicate.name) predicates.items) width },
}

fn is_long(bytes: &[u8]) -> bool
    ensures yes { result ≡ true → document_byte_limit < length bytes.now }
    ensures no { result ≡ false → length bytes.now ≤ document_byte_limit }
{
    bytes.len() > DOCUMENT_BYTE_LIMIT
}

fn width_of(width: Option<&Value>) -> u64
    ensures { result ≡ width_of (option_map (λ value. view value.now) width.entry) }
{
    match width.and_then(Value::as_i64) {
        Some(width) if width >= 0 => width as u64,
        Some(_) => 0,
        None => DEFAULT_WIDTH,
    }
}

fn value_in(row: &[i64], v: usize) -> i64
    requires { v < length row.now }
    ensures { slice_get row.now v ≡ Some result }
{
    row[v]
}

impl Spec {
    ghost use Rattle.std.specs.Prelude.{Err, IfOk, IfErr, None, [], slice_index_or, ℕ};
    ghost use Rattle.def_format.specs.Documents.{IsDocument, IsDocumentWithin, inquiry_of, outline_fault, plain};
    ghost use Rattle.def_format.specs.Names.{vars_of};
    ghost use Rattle.pd_spec.specs.DocumentParts.{IsDocumentOf};
    ghost use Rattle.pd_spec.specs.Named.{named_view};
    ghost use Rattle.pd_spec.specs.Outlines.{outline_view};
    ghost use Rattle.pd_spec.specs.Predicates.{IsLateFault};
    ghost use Rattle.def_format.specs.Versions.{version_view};
    ghost use Rattle.pd_spec.specs.Views.{document_view, options_view, IsFaultOf, IsFaultWithin};

    /// The document that these bytes are.
    ///
    /// # Errors
    /// The first fault of the document, or out of memory.
    pub fn read(alloc: Global, bytes: &[u8]) -> Result<Spec, SpecFault>
        ensures ok { IfOk result (λ spec. IsDocument (plain bytes.now) (document_view spec)) }
        ensures err { IfErr result (λ fault. IsFaultOf (plain bytes.now) fault) }
        // Bytes that are too many are refused as such, and never as out of memory.
        ensures long { document_byte_limit < length bytes.now → result ≡ Err SpecFault.Long }
    {
        let none = Options::none(alloc);
        Spec::read_with_options(alloc, bytes, &none)
    }

    /// The document that these bytes are, with what is asked in place of what it has.
    ///
    /// # Errors
    /// The first fault of the document, or out of memory. Whether it is too long is decided by its own bytes, whatever
    /// is asked.
    pub fn read_with_options(
        alloc: Global,
        bytes: &[u8],
        options: &Options<'_>,
    ) -> Result<Spec, SpecFault>
        ensures ok { IfOk result (λ spec. IsDocument (inquiry_of (options_view options.now) bytes.now)
            (document_view spec)) }
        ensures err { IfErr result (λ fault. IsFaultOf (inquiry_of (options_view options.now) bytes.now) fault) }
        // Bytes that are too many are refused as such, and never as out of memory.
        ensures long { document_byte_limit < length bytes.now → result ≡ Err SpecFault.Long }
    {
        Spec::read_within(alloc, PROCESS_LIMIT, bytes, options)
    }

    /// The same, if the document may have this many processes.
    ///
    /// # Errors
    /// The first fault of the document, or out of memory.
    pub fn read_within(
        alloc: Global,
        limit: usize,
        bytes: &[u8],
        options: &Options<'_>,
    ) -> Result<Spec, SpecFault>
        ensures ok { IfOk result (λ spec. IsDocumentWithin limit (inquiry_of (options_view options.now) bytes.now)
            (document_view spec)) }
        ensures err { IfErr result (λ fault.
            IsFaultWithin limit (inquiry_of (options_view options.now) bytes.now) fault) }
        // Bytes that are too many are refused as such, and never as out of memory.
        ensures long { document_byte_limit < length bytes.now → result ≡ Err SpecFault.Long }
    {
        if is_long(bytes) {
            return Err(SpecFault::Long);
        }
        let Some(value) = json_value(alloc, bytes)? else {
            return Err(SpecFault::Json);
        };
        let changed = with_options(alloc, value, options)?;
        let Some(outline) = Outline::read(alloc, &changed)? else {
            return Err(SpecFault::Shape);
        };
        outline.check(alloc, limit)?;
        Spec::of_outline(alloc, &outline, options.beyond_width)
    }

    fn of_outline(
        alloc: Global,
        outline: &Outline<'_>,
        beyond_width: bool,
    ) -> Result<Spec, SpecFault>
        requires { (limit : ℕ) × (outline_fault limit (outline_view outline.now) ≡ None) }
        ensures ok { IfOk result (λ spec. IsDocumentOf (outline_view outline.now) beyond_width (document_view spec)) }
        ensures err { IfErr result (λ fault. IsLateFault (outline_view outline.now) fault) }
    {
        let names = outline.names(alloc)?;
        let initial = outline.initial(alloc)?;
        let predicates = parse_all(alloc, &names, &outline.predicates)?;
        let Some(version) = version_of(outline.version) else {
            return Err(SpecFault::Version);
        };
        Ok(Spec {
            names,
            initial,
            predicates,
            width: width_of(outline.width),
            version,
            beyond_width,
        })
    }

    /// The processes and their variables.
    pub fn names(&self) -> &Names
        ensures { result.now ≡ (document_view self.now).names }
    {
        &self.names
    }

    /// The initial value of variable `v` of process `p`, both counted from 0.
    pub fn initial(&self, p: usize, v: usize) -> i64
        requires { v < length (vars_of (document_view self.now).names p) }
        ensures { slice_get (slice_index_or (document_view self.now).initial p []) v ≡ Some result }
    {
        value_in(self.initial_row(p), v)
    }

    /// The initial values of the variables of process `p`, which is counted from 0, in the variables' order.
    pub fn initial_row(&self, p: usize) -> &[i64]
        requires { p < length (document_view self.now).names }
        ensures { slice_get (document_view self.now).initial p ≡ Some result.now }
    {
        self.initial[p].as_slice()
    }

    /// The initial values of each process's variables, in the order of the processes.
    pub fn initial_rows(&self) -> &[Vec<i64>]
        ensures { map (λ row. row.items) result.now ≡ (document_view self.now).initial }
    {
        self.initial.as_slice()
    }

    /// The predicates, in the document's order.
    pub fn predicates(&self) -> &[NamedPred]
        ensures { map named_view result.now ≡ (document_view self.now).predicates }
    {
        self.predicates.as_slice()
    }

    /// How many cuts a level may have, from 1 to `WIDTH_LIMIT`.
    pub fn width(&self) -> u64
        ensures { result ≡ (document_view self.now).width }
    {
        self.width
    }

    /// Which processes may receive a message.
    pub fn version(&self) -> Version
        ensures { version_view result ≡ (document_view self.now).version }
    {
        self.version
    }

    /// Whether predicates are answered whatever the width where they are decided without levels.
    pub fn beyond_width(&self) -> bool
        ensures { result ≡ (document_view self.now).beyond_width }
    {
        self.beyond_width
    }
}

impl InitialValues for Spec {
    ghost use Rattle.pd_spec.specs.Views.{document_view};

    ghost names = { λ s. (document_view s).names };

    ghost initial = { λ s. (document_view s).initial };

    fn initial_rows(&self) -> &[Vec<i64>] {
        self.initial.as_slice()
    }
}
