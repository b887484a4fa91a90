// A derivation's text of about a given size, the same for each size.
use std::alloc::Global;
use std::fmt::Write;

// A store path up to its name; the number stands in its digits.
fn push_store(to: &mut String, n: u32) -> anyhow::Result<()> {
    write!(to, "/nix/store/{n:03}3456789abcdfghijklmnpqrsvwxyz-")?;
    Ok(())
}

// What stands at place i of a string: a letter, or one of two escapes.
fn push_place(to: &mut String, i: usize) -> anyhow::Result<()> {
    match i % 40 {
        19 => to.push_str("\\n")?,
        39 => to.push_str("\\\"")?,
        _ => to.push(char::from(b'a' + (i % 26) as u8))?,
    }
    Ok(())
}

// A string of so many places after one that is escaped without need. What stands at a place is made of its number.
fn push_string(to: &mut String, count: usize) -> anyhow::Result<()> {
    to.push_str("\"\\-")?;
    for i in 0..count {
        push_place(to, i)?;
    }
    to.push('"')?;
    Ok(())
}

// So many items with commas between them. What an item says is made of its number: there is no other list to go through.
fn push_list<F: FnMut(&mut String, u8) -> anyhow::Result<()>>(
    to: &mut String,
    count: u8,
    mut push_item: F,
) -> anyhow::Result<()>
    requires { F.IsAlwaysCallable push_item }
{
    for i in 0..count {
        if i > 0 {
            to.push(',')?;
        }
        push_item(to, i)?;
    }
    Ok(())
}

fn push_input(to: &mut String, i: u8) -> anyhow::Result<()> {
    to.push_str("(\"")?;
    push_store(to, u32::from(i) * 5 % 16)?;
    to.push_str("input.drv\",[\"out\",\"dev\"])")?;
    Ok(())
}

fn push_source(to: &mut String, i: u8) -> anyhow::Result<()> {
    to.push('"')?;
    push_store(to, u32::from(i) * 7 % 16)?;
    to.push_str("source\"")?;
    Ok(())
}

fn push_value(to: &mut String, value: &str) -> anyhow::Result<()> {
    to.push_str(value)?;
    Ok(())
}

fn push_variable(to: &mut String, i: u8, value: &str) -> anyhow::Result<()> {
    let number = u32::from(i) * 37 % 128;
    write!(to, "(\"v{number:03}\",")?;
    push_value(to, value)?;
    to.push(')')?;
    Ok(())
}

// 16 inputs, 16 sources and 128 variables, none of them sorted, and 64 arguments.
// What stands beside the bytes of the arguments and the environment's values is about 23 bytes to each of their 192 strings;
// one place in 20 of a string is an escape of two bytes.
pub fn make(heap: Global, size: usize) -> anyhow::Result<String> {
    let each = (size / 192).saturating_sub(23);
    let count = each - each / 21;
    // Each argument and each variable has the same string, which is made once.
    let mut value = String::new(heap);
    push_string(&mut value, count)?;
    let mut made = String::new(heap);
    made.push_str("Derive([(\"out\",\"")?;
    push_store(&mut made, 0)?;
    made.push_str("bench\",\"\",\"\")],[")?;
    push_list(&mut made, 16, push_input)?;
    made.push_str("],[")?;
    push_list(&mut made, 16, push_source)?;
    made.push_str("],\"x86_64-linux\",\"/bin/sh\",[")?;
    push_list(&mut made, 64, |to, _| push_value(to, value.as_str()))?;
    made.push_str("],[")?;
    push_list(&mut made, 128, |to, i| push_variable(to, i, value.as_str()))?;
    made.push_str("])")?;
    Ok(made)
}
