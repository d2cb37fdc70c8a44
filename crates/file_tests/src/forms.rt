//! Copies of forms.

use ds_text::Form;
use ds_value::{Copied, Items};
use std::test::Fail;

static WIDTHS: [&[u32]; 3] = [&[], &[1], &[5, 65_536, 5]];

fn is_fixed(form: &Form, wanted: &[u32]) -> bool {
    match form {
        Form::Fixed(widths) => widths.as_slice() == wanted,
        Form::Delimited(_) => false,
    }
}

#[test]
fn copies_of_forms(rt: HostRuntime) -> Result<(), Fail> {
    let alloc = rt.alloc();
    for list in &WIDTHS {
        let form = Form::Fixed(Items::from_vec(list.to_vec(alloc)?));
        assert!(rt; is_fixed(&form.copied()?, list), "{list:?}");
    }
    assert!(rt; matches!(Form::Delimited(b'|').copied()?, Form::Delimited(b'|')));
    Ok(())
}
