//! Sites and applications: those of any simulation address, and the address of a station.

ghost use Rattle.std.specs.Prelude.{◌≡◌, ◌↔◌, true};
ghost use Rattle.std.specs.declared.cmp.Ordering.TheVariants.{Less, Equal};
ghost use Rattle.std.specs.Option.{SomeIff};
ghost use Rattle.dis_records.specs.declared.address.SiteApplication.{SiteApplication};
ghost use Rattle.dis_records.specs.Address.{is_address_part, is_address, compared, IsBefore};

use std::marker::Model;

/// Largest site or application number of an address (profile); 0xFFFF means all.
pub const LARGEST_ADDRESS_PART: u16 = 0xFFFE;

/// The two numbers of a simulation address as a PDU holds them, each 0..=0xFFFF (IEEE
/// 1278.1-2012, 6.2.79); 0 means none and 0xFFFF all.
#[derive(Clone, Copy, PartialEq, Eq)]
pub struct SiteApplication {
    pub site: u16,
    pub application: u16,
}

/// Address of one simulation application: its site and its application number, each in 1..=0xFFFE
/// (IEEE 1278.1-2012, 6.2.79; the range is this project's profile: 0 means none and 0xFFFF all).
/// Addresses are compared first by site, then by application ([`addresses_are_ordered`]).
#[derive(Clone, Copy, PartialEq, Eq, PartialOrd, Ord)]
pub struct Address {
    site: u16,
    application: u16,
}

/// Whether a site or application number can be part of an address: it is in 1..=0xFFFE.
pub fn is_address_part(number: u16) -> bool
    ensures { result ≡ is_address_part number }
{
    number >= 1 && number <= LARGEST_ADDRESS_PART
}

impl Model for Address {
    ghost use Rattle.std.specs.Prelude.{◌≡◌, true};
    ghost use Rattle.dis_records.specs.declared.address.SiteApplication.{SiteApplication};
    ghost use Rattle.dis_records.specs.Address.{is_address};

    ghost Value = { SiteApplication };

    ghost view = { λ a. record { site = a.site; application = a.application } };

    ghost invariant = { λ a. is_address (record { site = a.site; application = a.application }) ≡ true };

    ghost inverse = { λ p. record { site = p.site; application = p.application } };
}

impl Address {
    /// Address with these two numbers, or `None` if one of them is 0 or 0xFFFF.
    pub fn new(site: u16, application: u16) -> Option<Address>
        ensures { let pair : SiteApplication = record { site = site; application = application } in SomeIff result (is_address pair ≡ true) pair }
    {
        if !is_address_part(site) || !is_address_part(application) {
            return None;
        }
        Some(Address { site, application })
    }

    /// Its two numbers.
    pub fn site_application(&self) -> SiteApplication
        ensures { result ≡ self.now }
    {
        SiteApplication {
            site: self.site,
            application: self.application,
        }
    }

    /// Number of the site, in 1..=0xFFFE.
    pub fn site(&self) -> u16
        ensures site { result ≡ self.now.site }
        ensures address { is_address self.now ≡ true }
    {
        self.site
    }

    /// Number of the application at its site, in 1..=0xFFFE.
    pub fn application(&self) -> u16
        ensures application { result ≡ self.now.application }
        ensures address { is_address self.now ≡ true }
    {
        self.application
    }
}

/// Laws of comparing addresses: first by site, then by application; the result is Less exactly if
/// one is before the other, and Equal exactly if both numbers are equal. The call does nothing at
/// run time.
pub fn addresses_are_ordered(a: Address, b: Address)
    ensures order { ⟦<Address as Ord>⟧.cmp a b ≡ compared a b }
    ensures below { (compared a b ≡ Less) ↔ IsBefore a b }
    ensures equal { (compared a b ≡ Equal) ↔ (a ≡ b) }
{}

/// Both numbers of an address are in 1..=0xFFFE, so that it names one simulation application. The
/// call does nothing at run time.
pub fn addresses_name_one(address: Address)
    ensures { is_address address ≡ true }
{}
