//! A sheet in lines.
use amount::kind::Amount;
use digraph::table::LINKS;
use sheet::Sheet;
use std::fmt::Display;

/// Prints a sheet: by rising number `link`, number, tail, head and price, and then, if a tree is
/// installed, `tree` and its numbers rising.
pub fn print_sheet<T: Amount + Display>(
    rt: &HostRuntime,
    sheet: &Sheet,
    prices: &[T],
) -> anyhow::Result<()> {
    for number in 0..LINKS as u16 {
        if let (Some(link), Some(price)) = (sheet.link(number), prices.get(number as usize)) {
            println!(rt; "link {number} {} {} {price}", link.tail, link.head)?;
        }
    }
    if sheet.has_tree() {
        print_tree(rt, sheet)?;
    }
    Ok(())
}

fn print_tree(rt: &HostRuntime, sheet: &Sheet) -> anyhow::Result<()> {
    print!(rt; "tree")?;
    for number in 0..LINKS as u16 {
        if sheet.in_tree(number) {
            print!(rt; " {number}")?;
        }
    }
    println!(rt; "")?;
    Ok(())
}
