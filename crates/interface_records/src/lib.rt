// PSU and charger records as bytes (SHP-8 to SHP-10). A record is made of groups of six bytes: a number and a
// capability, mV and mA low byte first and then the flag byte. A capability that is absent is five zeros.
#![tactic(auto)]

pub mod charger;
pub mod group;
pub mod psu;
pub mod row;
