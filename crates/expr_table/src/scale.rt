ghost use Rattle.std.specs.Prelude.{◌≡◌, ◌≤◌, ◌==◌, sum};
ghost use Rattle.std.specs.List.{list_all};
ghost use Rattle.expr_table.specs.Scales.{result_scale, greater_scale, scale_of_wholes, scale_of_product, scale_of_rounded};

use crate::FnName;

fn greater_scale(scales: &[u8]) -> u8
    ensures { result ≡ greater_scale scales.now }
{
    match scales {
        [] => 0,
        [s, more @ ..] => (*s).max(greater_scale(more)),
    }
}

fn are_zero(scales: &[u8]) -> bool
    ensures { result ≡ list_all (λ s. s == 0) scales.now }
{
    scales.iter().all(|s| *s == 0)
}

fn scale_of_wholes(scales: &[u8]) -> Option<u8>
    ensures { result ≡ scale_of_wholes scales.now }
{
    if are_zero(scales) { Some(0) } else { None }
}

fn scale_of_product(scales: &[u8]) -> Option<u8>
    requires { sum scales.now ≤ 255 }
    ensures { result ≡ scale_of_product scales.now }
{
    let sum: u8 = scales.iter().sum();
    if sum <= 38 { Some(sum) } else { None }
}

fn scale_of_rounded(scales: &[u8], literal: Option<u128>) -> Option<u8>
    ensures { result ≡ scale_of_rounded scales.now literal }
{
    match (scales, literal) {
        ([s, 0], Some(places)) if places <= u128::from(*s) => Some(places as u8),
        _ => None,
    }
}

/// The scale of a result. None where the name isn't typed with these scales; the literal is
/// the whole number that stands as the second argument, if one does.
pub fn result_scale(name: FnName, scales: &[u8], literal: Option<u128>) -> Option<u8>
    requires { sum scales.now ≤ 255 }
    ensures { result ≡ result_scale name scales.now literal }
{
    match name {
        FnName::Times => scale_of_product(scales),
        FnName::Divide | FnName::Remainder | FnName::Substr | FnName::AddDays => {
            scale_of_wholes(scales)
        }
        FnName::Round => scale_of_rounded(scales, literal),
        FnName::Plus
        | FnName::Minus
        | FnName::IfNull
        | FnName::If
        | FnName::Abs
        | FnName::Least
        | FnName::Greatest => Some(greater_scale(scales)),
        _ => Some(0),
    }
}
