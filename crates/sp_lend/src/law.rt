// Laws, called as `law::..`: they run no code.
pub(crate) use sp_rules::{compiled_plans_are_lawful, lent_stays};
