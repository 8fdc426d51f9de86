//! The host's beginning and its end.
ghost use Rattle.std.specs.Prelude.{◌≡◌, [], IfErr, IfOk};
ghost use Rattle.std.specs.FinMap as map;
ghost use Rattle.host_values.specs.Findings.{ShownFirst};
ghost use Rattle.host_values.specs.Shown.{Shown};
ghost use Rattle.awk_values.specs.Values.{text_of_value};
ghost use Rattle.host_calls.specs.Forms.{host_form};
ghost use Rattle.host_step.specs.HostState.{HostState};
ghost use Rattle.host_step.specs.Live.{live_arrays, live_iterators, live_values};
ghost use Rattle.host_tables.specs.Starts.{job_of};

use crate::host::Host;
use awk_values::{Bytes, Fault, Stop, to_text};
use host_imports::Links;
use host_tables::{FirstTables, Job, Tables};
use host_worlds::Input;
use sem_primitives::Special;
use std::alloc::Global;
use std::hash::RandomState;
use world_core::World;

/// The second of two values; the first is let go.
fn kept<A: Drop, B>(gone: A, kept: B) -> B
    ensures { result ≡ kept }
{
    drop(gone);
    kept
}

impl<W: World> Host<W> {
    /// The host at the start of a job: no value has a handle, ARGV and ENVIRON are filled, nothing is read, and no fault is kept but
    /// [`Fault::TextLimit`], where a text of the job is past 67,108,864 bytes. The keys of arrays are hashed by the state; no answer depends on it.
    ///
    /// # Errors
    ///
    /// The world is handed back unless memory suffices.
    pub fn new(alloc: Global, job: &Job, state: RandomState, world: W) -> Result<Host<W>, W>
        ensures started { IfOk result (λ host. ShownFirst (host_form W.state host)
            (job_of job.now) ((W.state world).readers 0) (W.state world).outside) }
        ensures world { IfOk result (λ host. host.world ≡ world) }
        ensures none_open { IfOk result (λ host. host.input.files.writers.items ≡ []) }
        ensures handed_back { IfErr result (λ given. given ≡ world) }
    {
        let Ok(links) = Links::new(alloc) else {
            return Err(world);
        };
        let Ok(first) = FirstTables::at_start(alloc, job, state) else {
            return Err(world);
        };
        let (tables, names) = Tables::new(alloc, first);
        Ok(Host {
            alloc,
            links,
            tables,
            input: Input::new(alloc, names),
            line: Vec::new(alloc),
            world,
        })
    }

    /// The fault that is kept: the first one that was met.
    pub fn kept_fault(&self) -> Option<Fault>
        ensures { result ≡ self.now.tables.fault }
    {
        self.tables.fault()
    }

    /// The text of a special variable. NF has none: it is the number of fields.
    ///
    /// # Errors
    ///
    /// Where memory is wanting.
    pub fn special_text(&self, special: Special) -> Result<Bytes, Stop>
        ensures ok { IfOk result (λ text. text
            ≡ text_of_value ((host_form W.state self.now).shared.inner.specials special)) }
        ensures err { IfErr result (λ stop. stop ≡ Stop.NoMemory) }
    {
        to_text(self.alloc, self.tables.texts.specials.get(special))
    }

    /// How many values have a handle.
    pub fn live_values(&self) -> usize
        ensures form { result ≡ map.len (host_form W.state self.now).values }
        ensures counted { (s : HostState) → Shown (host_form W.state self.now) s
            → result ≡ live_values s }
    {
        self.tables.handles.live()
    }

    /// How many arrays there are, ARGV and ENVIRON counted.
    pub fn live_arrays(&self) -> usize
        ensures form { result ≡ map.len (host_form W.state self.now).arrays }
        ensures counted { (s : HostState) → Shown (host_form W.state self.now) s
            → result ≡ live_arrays s }
    {
        self.tables.arrays.live()
    }

    /// How many iterators there are.
    pub fn live_iterators(&self) -> usize
        ensures form { result ≡ map.len (host_form W.state self.now).iterators }
        ensures counted { (s : HostState) → Shown (host_form W.state self.now) s
            → result ≡ live_iterators s }
    {
        self.tables.iterators.live()
    }

    /// The world, with the output of the calls.
    pub fn into_world(self) -> W
        ensures { result ≡ self.world }
    {
        let Host {
            links,
            tables,
            input,
            line,
            world,
            ..
        } = self;
        kept((links, tables, input, line), world)
    }
}
