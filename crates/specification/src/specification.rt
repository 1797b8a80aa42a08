// A file that passes refusals 1 and 2: its sizes, and what they say of it.
ghost use Rattle.std.specs.Prelude.{◌≡◌, [], ◌∷◌, IfOk};
ghost use Rattle.verdict.specs.Checks.{check, Unless, Decides, Judged, Passed};
ghost use Rattle.verdict.specs.Refusals.{verdict_of};
ghost use Rattle.specification.specs.Records.{sizes_of, couples, Sized};
ghost use Rattle.specification.specs.inner.Private.{Laid};

use crate::file::{Formed, Head};
use crate::records::{Records, Sizes};
use machine::settings;
use verdict::Refusal;

// A file to which refusals 1 and 2 do not apply, and its sizes: the texts of its records lie in it.
#[derive(Clone, Copy)]
pub(crate) struct Specification<'a> {
    pub file: &'a [u8],
    pub z: Sizes,
    pub ghost laid: { Laid file.now z },
    pub ghost read: { z ≡ sizes_of file.now },
}

impl<'a> Formed<'a> {
    // Whether refusal 2 does not apply.
    fn sized(self, z: Sizes) -> bool
        requires { z ≡ sizes_of self.file.now }
        ensures { Decides (Sized self.entry.file.now) result }
    {
        let head = Head { file: self.file };
        if !z.in_range() || head.length(1) != 3 * z.states {
            return false;
        }
        let records = Records { file: self.file, z };
        if records.texts_sum(z.worded) != 0 {
            return false;
        }
        if records.texts_sum(z.states + z.evolutions) != head.length(3) {
            return false;
        }
        head.bodies_fit()
    }

    // Refusal 2.
    pub(crate) fn check_sizes(self) -> Result<Specification<'a>, Refusal>
        ensures verdict { Judged (check 2 (Unless (Sized self.entry.file.now)) ∷ []) Passed (verdict_of result) }
        ensures file { IfOk result (λ specification. specification.file.now ≡ self.entry.file.now) }
    {
        let z = self.sizes();
        if !self.sized(z) {
            return Err(Refusal::WrongSize);
        }
        Ok(Specification { file: self.file, z })
    }
}

impl<'a> Specification<'a> {
    // How many couples there are.
    pub(crate) fn couples(self) -> usize
        ensures { result ≡ couples self.entry.z }
    {
        self.z.states * settings(self.z.inputs)
    }
}
