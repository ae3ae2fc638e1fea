// The parts of a device, and their offsets.
ghost use Rattle.std.specs.Prelude.{◌≡◌, ◌↔◌, ◌≤◌, IsOk, IfOk, IfErr};
ghost use Rattle.tmem_record.specs.Layout.{IsLayout, pages_of, image_size, image_at, slot_at, end_at};

use tmem_fault::Fault;

/// The greatest number of variables.
pub const MOST_VARS: u16 = 1024;

/// The least number of log slots.
pub const LEAST_SLOTS: u16 = 2;

/// The greatest number of log slots.
pub const MOST_SLOTS: u16 = 64;

/// How long block 0 is.
pub const BLOCK_BYTES: usize = 512;

/// How long the header of an image is, with its gate.
pub const HEADER_BYTES: usize = 2048;

/// How long a page of an image is.
pub const PAGE_BYTES: usize = 512;

/// How many values a page has.
pub const PAGE_VALUES: usize = 64;

/// How long a log slot is.
pub const SLOT_BYTES: usize = 4096;

/// How many variables and log slots a device has, within the limits. Places and sizes are in bytes.
#[derive(Clone, Copy, Debug, PartialEq, Eq)]
pub struct Layout {
    pub vars: u16,
    pub slots: u16,

    /// The numbers are within the limits.
    pub ghost fits: { IsLayout vars slots },
}

impl Layout {
    /// The layout of these numbers, or `Geometry` where one is not within the limits.
    pub fn new(vars: u16, slots: u16) -> Result<Layout, Fault>
        ensures ok { IsOk result ↔ IsLayout vars slots }
        ensures vars { IfOk result (λ layout. layout.vars ≡ vars) }
        ensures slots { IfOk result (λ layout. layout.slots ≡ slots) }
        ensures err { IfErr result (λ f. f ≡ Fault.Geometry) }
    {
        let vars_fit = 1 <= vars && vars <= MOST_VARS;
        let slots_fit = LEAST_SLOTS <= slots && slots <= MOST_SLOTS;
        if !(vars_fit && slots_fit) {
            return Err(Fault::Geometry);
        }
        Ok(Layout { vars, slots })
    }

    /// How many pages an image has.
    pub fn pages(self) -> u64
        ensures { result ≡ pages_of self.vars }
    {
        (self.vars as u64 + (PAGE_VALUES as u64 - 1)) / PAGE_VALUES as u64
    }

    /// How long an image copy is, with its gate.
    pub fn image_size(self) -> u64
        ensures { result ≡ image_size self.vars }
    {
        HEADER_BYTES as u64 + PAGE_BYTES as u64 * self.pages()
    }

    /// Where an image copy begins.
    pub fn image(self, copy: u8) -> u64
        requires { copy ≤ 1 }
        ensures { result ≡ image_at self.vars copy }
    {
        BLOCK_BYTES as u64 + copy as u64 * self.image_size()
    }

    /// Where a log slot begins.
    pub fn slot(self, k: u16) -> u64
        ensures { result ≡ slot_at self.vars k }
    {
        BLOCK_BYTES as u64 + 2 * self.image_size() + SLOT_BYTES as u64 * k as u64
    }

    /// The first offset behind the last slot.
    pub fn end(self) -> u64
        ensures { result ≡ end_at self.vars self.slots }
    {
        self.slot(self.slots)
    }
}
