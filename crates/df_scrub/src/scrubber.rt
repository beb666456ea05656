// Where the tour stands, and the ring of the newest 64 findings. What was found of a block is noted here.
ghost use Rattle.std.specs.Prelude.{◌≡◌, ◌<◌, ◌≤◌, length, slice_get, IfOk};
ghost use Rattle.df_scrub.specs.{Below.{first_tour}, Scrubber.{ScrubState, judged, new_scrub, with_check}};

use crate::{Finding, Scrubbed, Verdict};
use circular_buffer::HeapCircularBuffer;
use df_base::OutOfMemory;
use df_layout::{Class, FINDINGS};
use std::alloc::Global;
use std::marker::Model;

/// A tour over the referenced blocks: the last address that it checked, how many blocks and how many failing ones so far, each
/// count from its start; and the newest 64 findings of all tours, the oldest first.
#[derive(Drop)]
pub struct Scrubber {
    last: u64,
    checked: u64,
    failing: u64,
    findings: HeapCircularBuffer<Finding>,
}

impl Model for Scrubber {
    ghost use Rattle.df_scrub.specs.Scrubber.{ScrubState, IsScrubber};

    ghost Value = { ScrubState };

    ghost view = { λ s. record { tour = record { last = s.last; checked = s.checked; failing = s.failing }; findings = s.findings.items } };

    ghost invariant = { λ s. IsScrubber s.last s.checked s.failing s.findings.capacity s.findings.items };
}

impl Scrubber {
    /// A scrubber at the start of a tour, with no finding, or the refusal of memory for its ring. No other call takes memory.
    pub fn reserve(alloc: Global) -> Result<Scrubber, OutOfMemory>
        ensures { IfOk result (λ scrubber. scrubber ≡ new_scrub) }
    {
        let findings = HeapCircularBuffer::with_capacity(alloc, FINDINGS)?;
        Ok(Scrubber {
            last: 0,
            checked: 0,
            failing: 0,
            findings,
        })
    }

    /// Begins with another file: the tour is at its start, and there is no finding.
    pub fn clear(&mut self)
        ensures { self.new ≡ new_scrub }
    {
        self.begin();
        self.findings.clear();
    }

    /// Puts the tour at its start; the findings stay.
    pub fn begin(&mut self)
        ensures begun { self.new ≡ record self.old { tour = first_tour } }
        ensures few { length self.new.findings ≤ 64 }
    {
        self.last = 0;
        self.checked = 0;
        self.failing = 0;
    }

    /// The finding at a place of the ring, the oldest at place 0; None exactly past the last one.
    pub fn recent(&self, place: u64) -> Option<Finding>
        ensures value { result ≡ slice_get self.now.findings place }
        ensures few { length self.now.findings ≤ 64 }
    {
        self.findings.get(place as usize).copied()
    }

    /// The last address that this tour checked, 0 at its start.
    pub(crate) fn last(&self) -> u64
        ensures { result ≡ self.now.tour.last }
    {
        self.last
    }

    /// Notes what is wrong with the block at an address above the last one, if anything is: a finding goes last into the ring.
    pub(crate) fn note(&mut self, address: u64, wrong: Option<Class>) -> Scrubbed
        requires above { self.old.tour.last < address }
        ensures answer { result ≡ Scrubbed.Checked address (judged wrong) }
        ensures noted { self.new ≡ with_check self.old address (judged wrong) }
    {
        self.last = address;
        self.checked += 1;
        let Some(class) = wrong else {
            let verdict = Verdict::Sound;
            return Scrubbed::Checked { address, verdict };
        };
        self.failing += 1;
        self.findings.push_back(Finding { address, class });
        let verdict = Verdict::Failing(class);
        Scrubbed::Checked { address, verdict }
    }

    /// Ends the tour, and begins the next one.
    pub(crate) fn end(&mut self) -> Scrubbed
        ensures answer { result ≡ Scrubbed.TourEnd self.old.tour.checked self.old.tour.failing }
        ensures begun { self.new ≡ record self.old { tour = first_tour } }
    {
        let (checked, failing) = (self.checked, self.failing);
        self.begin();
        Scrubbed::TourEnd { checked, failing }
    }
}
