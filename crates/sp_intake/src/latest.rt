ghost use Rattle.std.specs.Prelude.{◌≡◌, pos, negsuc, ◌≤ℤ◌, None};
ghost use Rattle.sp_base.specs.Limits.{number_limit};
ghost use Rattle.sp_plan.specs.declared.event.Event as came;
ghost use Rattle.sp_slack.specs.HeldBack.{before, is_before, with_time};
ghost use Rattle.sp_intake.specs.Latest.{latest_of};

/// The greatest time of some events, where there is one.
#[derive(Clone, Copy, Drop)]
pub(crate) struct Latest {
    // -1 where there is none, which is before each time.
    time: i64,
    ghost low: { negsuc 0 ≤ℤ time },
    ghost high: { time ≤ℤ pos number_limit },
}

impl Latest {
    /// Of no event.
    pub(crate) fn none() -> Latest
        ensures { latest_of result.time ≡ None }
    {
        Latest { time: -1 }
    }

    /// Whether an event of this time is behind it by more than the slack.
    #[inline(always)]
    pub(crate) fn is_late(self, slack: i64, time: i64) -> bool
        requires least { pos 0 ≤ℤ slack }
        requires most { slack ≤ℤ pos number_limit }
        requires low { pos 0 ≤ℤ time }
        ensures { (e : came.Event) → e.time ≡ time
            → result ≡ is_before (before slack (latest_of self.time)) e }
    {
        time < self.time - slack
    }

    /// The greatest time with that of an event more.
    #[inline(always)]
    pub(crate) fn with(self, time: i64) -> Latest
        requires low { pos 0 ≤ℤ time }
        requires high { time ≤ℤ pos number_limit }
        ensures { (e : came.Event) → e.time ≡ time
            → latest_of result.time ≡ with_time (latest_of self.time) e }
    {
        Latest {
            time: self.time.max(time),
        }
    }
}
