//! The lines of a genebank, tested on one genotype.
ghost use Rattle.std.specs.Prelude.{◌≡◌, ◌∷◌, [], Option, None, Some, IfOk};
ghost use Rattle.tierra_model.specs.Groups.{IsSaved};

use report_text::{bank_text, saved_line};
use std::alloc::Global;
use std::test::Fail;
use tierra_model::{Code, Effort, Form, Group, Groups, Name, Saved, SavedList};

const NAME: Name = Name { size: 2, rank: 27 };

/// A genotype of two instructions.
fn example(alloc: Global, parent: Option<Name>, first: Option<Effort>) -> Result<Saved, Fail>
    ensures { IfOk result (λ s. s ≡ record
        { name = record { size = 2; rank = 27 }; parent = parent; first = first; second = None; code = 0 ∷ 31 ∷ [] }) }
{
    Ok(Saved {
        name: NAME,
        parent,
        first,
        second: None,
        code: Code {
            items: vec![in alloc; 0u8, 31]?,
        },
    })
}

/// The text of a bank with that genotype alone.
fn text_of(alloc: Global, form: Form, saved: Saved) -> Result<Vec<u8>, Fail>
    requires { IsSaved form saved }
{
    let saved = SavedList {
        items: vec![in alloc; saved]?,
    };
    let group = Group {
        quantum: 34,
        form,
        saved,
    };
    let groups = Groups {
        items: vec![in alloc; group]?,
    };
    Ok(bank_text(alloc, &groups)?.items)
}

#[test]
fn a_group_of_form_two_tells_efforts(rt: HostRuntime) -> Result<(), Fail> {
    let parent = Some(Name { size: 80, rank: 0 });
    let first = Some(Effort {
        ran: 839,
        moved: 80,
    });
    let saved = example(rt.alloc(), parent, first)?;
    let text = text_of(rt.alloc(), Form::Two, saved)?;
    let lines = b"saved 0002abb 34\nparent 0080aaa\nfirst 839 80\nsecond none\ncode 001f\n";
    assert_eq!(rt; text.as_slice(), lines.as_slice());
    Ok(())
}

#[test]
fn a_group_of_form_one_has_none(rt: HostRuntime) -> Result<(), Fail> {
    let saved = example(rt.alloc(), None, None)?;
    let text = text_of(rt.alloc(), Form::One, saved)?;
    let lines = b"saved 0002abb 34\nparent none\ncode 001f\n";
    assert_eq!(rt; text.as_slice(), lines.as_slice());
    Ok(())
}

#[test]
fn a_saved_genotype_has_its_line(rt: HostRuntime) -> Result<(), Fail> {
    let saved = example(rt.alloc(), None, None)?;
    let text = saved_line(rt.alloc(), &saved, 4_000_000)?;
    assert_eq!(rt;
        text.items.as_slice(),
        b"saved 0002abb 4000000\n".as_slice()
    );
    Ok(())
}
