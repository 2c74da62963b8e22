//! Entity identifiers: originator or receiver of a PDU, and its entities.

ghost use Rattle.std.specs.Prelude.{◌≡◌};
ghost use Rattle.dis_records.specs.declared.address.SiteApplication.{SiteApplication};
ghost use Rattle.dis_records.specs.Entity.{site_application_of, entity_of, is_addressed};

use crate::address::{Address, SiteApplication};
use std::fmt;

/// Site or application number that means all (IEEE 1278.1-2012, 6.2.28).
const ALL: u16 = 0xFFFF;

/// An entity identifier (IEEE 1278.1-2012, 6.2.28): site, application and entity number, each
/// 0..=0xFFFF; 0xFFFF means all.
#[derive(Clone, Copy, PartialEq, Eq)]
pub struct EntityId {
    pub site: u16,
    pub application: u16,
    pub entity: u16,
}

impl EntityId {
    /// Its site and its application.
    pub fn site_application(self) -> SiteApplication
        ensures { result ≡ site_application_of self }
    {
        SiteApplication {
            site: self.site,
            application: self.application,
        }
    }
}

impl SiteApplication {
    /// Identifier of the entity with this number there.
    pub fn entity(self, number: u16) -> EntityId
        ensures { result ≡ entity_of self number }
    {
        EntityId {
            site: self.site,
            application: self.application,
            entity: number,
        }
    }
}

/// Prints `site:application:entity`.
impl fmt::Display for EntityId {
    ghost use Rattle.std.specs.Prelude.{Some};
    ghost use Rattle.dis_records.specs.Texts.{entity_text};

    ghost output = { λ id. Some (entity_text id) };

    fn fmt<W: fmt::Write>(&self, f: &mut fmt::Formatter<W>) -> fmt::Result {
        write!(f, "{}:{}:{}", self.site, self.application, self.entity)
    }
}

/// Entities that a request and its answer name together (profile).
#[derive(Clone, Copy, PartialEq, Eq)]
pub enum Scope {
    /// The entity with this number.
    One(u16),
    /// All entities of the application.
    All,
}

/// Whether a receiving identifier addresses a station: site and application are each the station's
/// or 0xFFFF (profile).
pub fn addressed(target: EntityId, station: Address) -> bool
    ensures { result ≡ is_addressed target station }
{
    addresses(target, station.site(), station.application())
}

/// Whether a receiving identifier addresses this site and application; they need not be a
/// station's.
pub fn addresses(target: EntityId, site: u16, application: u16) -> bool
    ensures { let pair : SiteApplication = record { site = site; application = application } in result ≡ is_addressed target pair }
{
    (target.site == site || target.site == ALL)
        && (target.application == application || target.application == ALL)
}
