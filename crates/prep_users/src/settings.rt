//! The settings about where users are.

ghost use Rattle.std.specs.Prelude.{◌≡◌, All, Any, IfNone, IfSome, None, option_map};
ghost use Rattle.prep_users.specs.Wanting.{database_name, database_of, last_with, no_users_name, switched_on, IsOfDatabase};

use prep_coturn::Row;

/// A setting with which there are no users to judge by.
#[derive(Clone, Copy, Debug, PartialEq, Eq)]
pub enum NoUsers {
    NoAuth,
    Oauth,
}

impl NoUsers {
    /// Its name in a configuration.
    pub fn name(self) -> &'static str
        ensures { result.now ≡ no_users_name self }
    {
        match self {
            NoUsers::NoAuth => "no-auth",
            NoUsers::Oauth => "oauth",
        }
    }

    /// Why it is refused.
    pub fn why(self) -> &'static str {
        match self {
            NoUsers::NoAuth => "whoever asks is served: a success without a user is R2",
            NoUsers::Oauth => "keys come by OAuth, which is not judged",
        }
    }
}

/// A setting by which users are in a database.
#[derive(Clone, Copy, Debug, PartialEq, Eq)]
pub enum Database {
    Sqlite,
    Postgres,
    Mysql,
    Mongo,
    Redis,
}

const DATABASES: [Database; 5] = [
    Database::Sqlite,
    Database::Postgres,
    Database::Mysql,
    Database::Mongo,
    Database::Redis,
];

impl Database {
    /// Its name in a configuration.
    pub fn name(self) -> &'static str
        ensures { result.now ≡ database_name self }
    {
        match self {
            Database::Sqlite => "userdb",
            Database::Postgres => "psql-userdb",
            Database::Mysql => "mysql-userdb",
            Database::Mongo => "mongo-userdb",
            Database::Redis => "redis-userdb",
        }
    }

    /// The setting with a name.
    pub fn of(name: &[u8]) -> Option<Database>
        ensures { result ≡ database_of name.now }
    {
        for database in DATABASES {
            if database.name().as_bytes() == name {
                return Some(database);
            }
        }
        None
    }
}

/// The first line with users in a database.
pub fn first_database(rows: &[Row<'_>]) -> Option<(u64, Database)>
    ensures some { IfSome result (λ found. Any (IsOfDatabase found.0 found.1) rows.now) }
    ensures none { IfNone result (All (λ row. database_of row.name.now ≡ None) rows.now) }
{
    for row in rows {
        if let Some(database) = Database::of(row.name) {
            return Some((row.line, database));
        }
    }
    None
}

/// The line on which a switch is set last, if that switches it on.
pub fn switched_on(rows: &[Row<'_>], name: &[u8]) -> Option<u64>
    ensures { result ≡ switched_on name.now rows.now }
{
    let mut on = None;
    for row in rows {
        if row.name == name {
            on = if row.is_on() { Some(row.line) } else { None };
        }
    }
    on
}

/// The last value of a setting.
pub fn last_value<'a>(rows: &[Row<'a>], name: &[u8]) -> Option<&'a [u8]>
    ensures { option_map (λ value. value.now) result ≡ last_with name.now None rows.now }
{
    let mut value = None;
    for row in rows {
        if row.name == name {
            value = Some(row.value);
        }
    }
    value
}
