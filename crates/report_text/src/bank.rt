//! The texts of a genebank.

ghost use Rattle.std.specs.Prelude.{◌≡◌, ◌++◌, IfOk, OnOk};
ghost use Rattle.hex.specs.Hex.{encode_lower};
ghost use Rattle.genotyper.specs.Names.{name_text};
ghost use Rattle.report_text.specs.Bank.{bank_text, code_line, effort_line, genotype_text, group_text, parent_line, saved_line};

use genotyper::name_text;
use std::alloc::Global;
use tierra_model::{Code, Effort, Form, Group, Groups, Name, OutOfMemory, Saved, Text};

/// The line of a genotype that was saved in this quantum.
pub fn saved_line(alloc: Global, saved: &Saved, quantum: u64) -> Result<Text, OutOfMemory>
    ensures { IfOk result (λ text. text ≡ saved_line saved.now.name quantum) }
{
    let mut items = Vec::new(alloc);
    add_saved(alloc, &mut items, &saved.name, quantum)?;
    Ok(Text { items })
}

/// The text of a genebank: for each saved genotype its line, its parent, what its first and second daughters cost (only
/// in a group of form Two), and its code.
pub fn bank_text(alloc: Global, groups: &Groups) -> Result<Text, OutOfMemory>
    ensures { IfOk result (λ text. text ≡ bank_text groups.now) }
{
    let mut items = Vec::new(alloc);
    for group in groups.items.iter() {
        add_group(alloc, &mut items, group)?;
    }
    Ok(Text { items })
}

fn add_group(alloc: Global, text: &mut Vec<u8>, group: &Group) -> Result<(), OutOfMemory>
    ensures { OnOk result (text.new.items ≡ text.old.items ++ group_text group.now) }
{
    for saved in group.saved.items.iter() {
        add_genotype(alloc, text, group.form, group.quantum, saved)?;
    }
    Ok(())
}

fn add_genotype(
    alloc: Global,
    text: &mut Vec<u8>,
    form: Form,
    quantum: u64,
    saved: &Saved,
) -> Result<(), OutOfMemory>
    ensures { OnOk result (text.new.items ≡ text.old.items ++ genotype_text form quantum saved.now) }
{
    add_saved(alloc, text, &saved.name, quantum)?;
    add_parent(alloc, text, &saved.parent)?;
    if form == Form::Two {
        add_effort(alloc, text, "first", &saved.first)?;
        add_effort(alloc, text, "second", &saved.second)?;
    }
    add_code(alloc, text, &saved.code)
}

fn add_saved(
    alloc: Global,
    text: &mut Vec<u8>,
    name: &Name,
    quantum: u64,
) -> Result<(), OutOfMemory>
    ensures { OnOk result (text.new.items ≡ text.old.items ++ saved_line name.now quantum) }
{
    text.extend_from_slice(b"saved ")?;
    add_name(alloc, text, name)?;
    text.extend_from_slice(format!(in alloc; " {quantum}\n")?.as_bytes())
}

pub(crate) fn add_name(alloc: Global, text: &mut Vec<u8>, name: &Name) -> Result<(), OutOfMemory>
    ensures { OnOk result (text.new.items ≡ text.old.items ++ name_text name.now) }
{
    text.extend_from_slice(&name_text(alloc, name)?.items)
}

fn add_parent(alloc: Global, text: &mut Vec<u8>, parent: &Option<Name>) -> Result<(), OutOfMemory>
    ensures { OnOk result (text.new.items ≡ text.old.items ++ parent_line parent.now) }
{
    match parent {
        Some(name) => {
            text.extend_from_slice(b"parent ")?;
            add_name(alloc, text, name)?;
            text.extend_from_slice(b"\n")
        }
        None => text.extend_from_slice(b"parent none\n"),
    }
}

fn add_effort(
    alloc: Global,
    text: &mut Vec<u8>,
    label: &str,
    effort: &Option<Effort>,
) -> Result<(), OutOfMemory>
    ensures { OnOk result (text.new.items ≡ text.old.items ++ effort_line label.now effort.now) }
{
    let line = match effort {
        Some(effort) => format!(in alloc; "{label} {} {}\n", effort.ran, effort.moved)?,
        None => format!(in alloc; "{label} none\n")?,
    };
    text.extend_from_slice(line.as_bytes())
}

fn add_code(alloc: Global, text: &mut Vec<u8>, code: &Code) -> Result<(), OutOfMemory>
    ensures { OnOk result (text.new.items ≡ text.old.items ++ code_line code.now) }
{
    text.extend_from_slice(b"code ")?;
    add_hex(alloc, text, &code.items)?;
    text.extend_from_slice(b"\n")
}

/// Two lower-case hexadecimal digits for each byte.
pub(crate) fn add_hex(alloc: Global, text: &mut Vec<u8>, bytes: &[u8]) -> Result<(), OutOfMemory>
    ensures { OnOk result (text.new.items ≡ text.old.items ++ encode_lower bytes.now) }
{
    text.extend_from_slice(hex::encode(alloc, bytes)?.as_bytes())
}
