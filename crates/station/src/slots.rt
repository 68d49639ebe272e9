//! Slots run by a keeper, and what they came to.
use crate::check::print_checks;
use course::account::Account;
use course::check::Check;
use site::site::Site;

/// Prints each slot from joint state 0 on, and what they came to.
pub fn print_course(rt: &HostRuntime, site: &Site, checks: &[Check]) -> anyhow::Result<()> {
    print_checks(rt, site, checks)?;
    let account = Account::of(site, 0, checks);
    println!(rt; "{account}")?;
    Ok(())
}
