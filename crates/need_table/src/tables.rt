//! The price list as it is printed.

ghost use Rattle.std.specs.Prelude.{◌≡◌, ◌++◌, codes, decimal, IfOk, OnOk, string_bytes};
ghost use Rattle.std.specs.List.{flat_map};
ghost use Rattle.posix_defs.specs.Lines.{newline};
ghost use Rattle.posix_defs.specs.PriceText.{class_line, class_name, price_line, price_text, table_text};
ghost use Rattle.posix_defs.specs.Sizes.{fixed, reserve};

use crate::prices::price;
use kabi_types::{CallKind, Class, Memory};
use posix_defs::Price;
use std::alloc::{AllocError, Global};

fn class_name(class: Class) -> &'static str
    ensures { result.now ≡ class_name class }
{
    match class {
        Class::Proc => "Proc",
        Class::Node => "Node",
        Class::Page => "Page",
        Class::Desc => "Desc",
        Class::Vnode => "Vnode",
        Class::Name => "Name",
        Class::Block => "Block",
        Class::Pipe => "Pipe",
        Class::Chunk => "Chunk",
        Class::Sock => "Sock",
        Class::Leaf => "Leaf",
        Class::Lock => "Lock",
    }
}

/// What is kept back: two blocks, in bytes.
fn permanent() -> u64
    ensures { result ≡ reserve }
{
    2 * Class::Block.bytes()
}

/// What is charged at boot, in bytes: the first process, the root's inode, and what is kept back.
fn charged_at_boot() -> u64
    ensures { result ≡ fixed }
{
    Class::Proc.bytes() + Class::Vnode.bytes() + permanent()
}

fn push_class(out: &mut String, class: Class) -> Result<(), AllocError>
    ensures { OnOk result (string_bytes out.new ≡ string_bytes out.old ++ class_line class) }
{
    let (name, bytes) = (class_name(class), class.bytes());
    write!(out, "class {name} {bytes}\n")
}

fn push_classes(out: &mut String, classes: &[Class]) -> Result<(), AllocError>
    ensures { OnOk result (string_bytes out.new ≡ string_bytes out.old ++ flat_map class_line classes.now) }
{
    for class in classes {
        push_class(out, *class)?;
    }
    Ok(())
}

/// A price: a number, or what it is computed from.
fn push_price(out: &mut String, price: Price) -> Result<(), AllocError>
    ensures { OnOk result (string_bytes out.new ≡ string_bytes out.old ++ price_text price) }
{
    match price {
        Price::Always(bytes) => write!(out, "{bytes}"),
        Price::Mapped(node) => write!(out, "{node}*min(4,(p+62)/64+1)"),
        Price::Touched(page, 0) => write!(out, "{page}*pages"),
        Price::Touched(page, more) => write!(out, "{page}*pages+{more}"),
        Price::Moved(file, chunk) => write!(out, "max({file},{chunk}*ceil(min(m,4096)/512))"),
        Price::Copied(bytes) => write!(out, "{bytes} for F_DUPFD, else 0"),
    }
}

fn push_line(out: &mut String, kind: CallKind) -> Result<(), AllocError>
    ensures { OnOk result (string_bytes out.new ≡ string_bytes out.old ++ price_line kind) }
{
    write!(out, "bound {} ", kind.word())?;
    push_price(out, price(kind))?;
    out.push_str("\n")
}

fn push_lines(out: &mut String, kinds: &[CallKind]) -> Result<(), AllocError>
    ensures { OnOk result (string_bytes out.new ≡ string_bytes out.old ++ flat_map price_line kinds.now) }
{
    for kind in kinds {
        push_line(out, *kind)?;
    }
    Ok(())
}

fn push_fixed(out: &mut String) -> Result<(), AllocError>
    ensures { OnOk result (string_bytes out.new ≡ string_bytes out.old
        ++ ((codes "permanent " ++ decimal reserve ++ newline) ++ (codes "fixed " ++ decimal fixed ++ newline))) }
{
    let (permanent, fixed) = (permanent(), charged_at_boot());
    write!(out, "permanent {permanent}\nfixed {fixed}\n")
}

/// The price list: the sizes of all classes of objects, what is kept back for closing and ending, what is charged at boot,
/// and what each call may use of the kernel heap, all in bytes. `Memory` comes where the host has no memory left.
pub fn table(alloc: Global) -> Result<String, Memory>
    ensures { IfOk result (λ text. string_bytes text ≡ table_text) }
{
    let mut text = String::new(alloc);
    push_classes(&mut text, &Class::ALL)?;
    push_fixed(&mut text)?;
    push_lines(&mut text, &CallKind::ALL)?;
    Ok(text)
}
