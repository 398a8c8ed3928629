//! What the types of fixed values say of them.
ghost use Rattle.std.specs.Prelude.{◌≡◌, IfSome};
ghost use Rattle.vault_core.specs.Scalar.{IsMoment};
ghost use Rattle.vault_pan.specs.Draw.{IsDrawing};

use vault_core::moment::Moment;
use vault_pan::draw::Digits;

/// The moment, where one is fixed.
pub(crate) fn fixed_moment(moment: Option<Moment>) -> Option<Moment>
    // it is what is handed in
    ensures same { result ≡ moment }
    // if there is one, it is a moment
    ensures moment { IfSome result IsMoment }
{
    moment
}

/// The digits, where they are fixed.
pub(crate) fn fixed_digits(digits: Option<Digits>) -> Option<Digits>
    // it is what is handed in
    ensures same { result ≡ digits }
    // if there are some, they are a drawing
    ensures drawing { IfSome result IsDrawing }
{
    digits
}
