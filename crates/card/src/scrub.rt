// The work area, which is zeroed on every way out of a call.
ghost use Rattle.std.specs.Prelude.{◌≡◌, length, replicate};

/// Holds the one reference to the work area, and zeroes the area when it is let go.
pub(crate) struct Scrub<'a> {
    pub(crate) area: &'a mut [u32],
}

impl Drop for Scrub<'_> {
    fn drop(self)
        ensures { self.exit.0.now ≡ replicate (length self.entry.area.now) 0 }
    {
        self.area.fill(0);
        let Scrub { area: _ } = self;
    }
}
