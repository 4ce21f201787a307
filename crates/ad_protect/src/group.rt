//! The last numbers of the identifiers at which protection begins, and of those that are protected alone
//! ([MS-DTYP] 2.4.2.4).

// ---- below S-1-5-32

pub(crate) const ADMINISTRATORS: u32 = 544;

pub(crate) const ACCOUNT_OPERATORS: u32 = 548;

pub(crate) const SERVER_OPERATORS: u32 = 549;

pub(crate) const PRINT_OPERATORS: u32 = 550;

pub(crate) const BACKUP_OPERATORS: u32 = 551;

pub(crate) const REPLICATOR: u32 = 552;

// ---- below the domain's identifier

pub(crate) const ADMINISTRATOR: u32 = 500;

pub(crate) const KRBTGT: u32 = 502;

pub(crate) const DOMAIN_ADMINS: u32 = 512;

pub(crate) const DOMAIN_CONTROLLERS: u32 = 516;

pub(crate) const SCHEMA_ADMINS: u32 = 518;

pub(crate) const ENTERPRISE_ADMINS: u32 = 519;

pub(crate) const READ_ONLY_DOMAIN_CONTROLLERS: u32 = 521;

// ---- the bits of the groups that the settings take out, counted from 0

pub(crate) const ACCOUNT_OPERATORS_BIT: u8 = 0;

pub(crate) const SERVER_OPERATORS_BIT: u8 = 1;

pub(crate) const PRINT_OPERATORS_BIT: u8 = 2;

pub(crate) const BACKUP_OPERATORS_BIT: u8 = 3;
