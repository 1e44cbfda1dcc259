// A lent buffer that is filled from its start on.
ghost use Rattle.std.specs.Prelude.{◌≡◌, take};
ghost use Rattle.memory.specs.Filled.{Filled};

// `at` is the place behind the bytes so far.
#[derive(Drop)]
pub struct Filling<'a> {
    pub out: &'a mut [u8],
    pub at: usize,
}

impl<'a> Filling<'a> {
    pub fn of(out: &'a mut [u8]) -> Filling<'a>
        ensures lent { result.out.ghost_name ≡ out.entry.ghost_name }
        ensures bytes { result.out.now ≡ out.old }
        ensures start { result.at ≡ 0 }
    {
        Filling { out, at: 0 }
    }

    // Bytes behind those so far, as far as there is room.
    pub fn put(&mut self, bytes: &[u8])
        ensures { Filled self.old bytes.now self.new }
    {
        self.at = crate::put(self.out, self.at, bytes);
    }

    // The bytes so far.
    pub fn so_far(&self) -> &[u8]
        ensures { result.now ≡ take self.now.at self.now.out.now }
    {
        let end = self.at.min(self.out.len());
        &self.out[..end]
    }
}
